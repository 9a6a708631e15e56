// The index of a plan list by first ceiling, written into a lent buffer.
#![tactic(auto)]

// The plan numbers by rising key.
pub mod ordering;

// The same, written.
pub mod entries;

// Damaged list, short index, or the index.
pub mod building;
