// The threshold walk over all positions, and the list of plans that it leaves.
#![tactic(auto)]

// All positions, with the counts.
pub mod positions;

// A short buffer, the allowance spent, or the list in its buffer.
pub mod list;
