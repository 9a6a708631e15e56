// The cheapest plan that a value of the first ceiling allows, by a list and its index.
#![tactic(auto)]

// Whether a buffer holds the list's index.
pub mod testing;

// The cheapest plan, by keys.
pub mod cheapest;

// Damaged list, short index, no such plan, or the plan.
pub mod finding;
