// The frontier of plans, kept in the list buffer as records in their order.
#![tactic(auto)]

// Where a new plan belongs.
pub mod place;

// The plans that a new one drops.
pub mod pruning;

// A plan taken in.
pub mod insertion;

// The list finished, or the buffer cleared.
pub mod ending;
