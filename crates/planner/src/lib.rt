// The calls open to others. None asks anything of its caller.
#![tactic(auto)]

// The judge of a drawn tree: its costs, or the refusal.
pub use planner_judge::judge;

// The best tree under given ceilings: its costs, with its links in the tree buffer, or the refusal.
pub use planner_best::best;

// The list of plans that no other plan beats, into the list buffer, or the refusal.
pub use planner_list::list;

// One plan of a list: the number of fetching it, and its link bytes, a part of the list.
pub use planner_fetch::{fetch_links, fetch_number};

// The survey of figures, with the kind of yard record asked for, into the output, or the refusal.
pub use planner_write::write_survey;

// Small survey q, into the output, or the refusal.
pub use planner_small::small_survey;

// The index of a list by first ceiling, into the index buffer, or the refusal.
pub use planner_index::index;

// The cheapest plan of a list whose first ceiling cost is at most a value, by its index: the plan's number, or the refusal.
pub use planner_index::index_lookup;
