// The network that a survey's records say: its shape by value, and its columns in lent arrays.
#![tactic(auto)]

// The columns.
pub mod columns;

// The shape, with all columns.
pub mod decode;
