// The records of a plan list: its head, and a plan record for each plan.
#![tactic(auto)]

// Marks, sizes and where fields stand, and a plan record written.
pub mod records;

// The costs in a plan record, and their two orders.
pub mod costs;

// The head written.
pub mod head;
