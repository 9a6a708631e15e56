// The rules that the records of a survey must keep: numbers 2 to 8, 15 and 18, in their order.
#![tactic(auto)]

// A number outside its range, and the refusal by a rule.
pub mod checks;

// The rule of ranks, number 6.
pub mod rank_rules;

// The rule of the link count, number 15.
pub mod link_count;

// The stations at rest that a yard record says.
pub mod resting;

// The rules of a link's ends and costs, numbers 7 and 8.
pub mod link_rules;

// The yard record: its mark, then 3, 4, 15, 18, 5 and 6.
pub mod yard_record;

// The link records: in each its mark, then 7 and 8.
pub mod link_records;
