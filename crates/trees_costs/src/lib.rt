// The costs of a tree: its sum, and for each ceiling the k-th largest cost.
#![tactic(auto)]

// The sum cost.
pub mod sums;

// The k-th largest figure, in one pass.
pub mod kth;

// A ceiling cost.
pub mod ceilings;

// All costs.
pub mod costs;
