// Elements put into a lent buffer; specs/ has the theory of what a write leaves.
#![tactic(auto)]

// Elements and zeros written.
pub mod copies;

// Bytes moved within the buffer.
pub mod moves;
