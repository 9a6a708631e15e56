// The search for the best tree over all sets of exceptions.
#![tactic(auto)]

// A search, and the facts that stand with it.
pub mod under_way;

// The loops over the sets.
pub mod sets;
