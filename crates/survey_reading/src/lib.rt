// A survey read whole: its first refusal, or its network.
#![tactic(auto)]

// The limit of positions, number 19.
pub mod positions;

// The length, the yard record and the link records, in their order.
mod rules;

// The survey.
pub mod reader;
