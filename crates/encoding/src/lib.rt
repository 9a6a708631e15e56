// Numbers and marks as bytes, low byte first; specs/ has the theory of records and fields of one size.
#![tactic(auto)]

// Unsigned numbers and marks, read.
pub mod numbers;

// Signed numbers in two's complement, read.
pub mod signed;

// Numbers written.
pub mod writes;
