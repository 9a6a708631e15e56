// The replies of calls for C: structs of plain numbers.
#![tactic(auto)]

// The reply of the judge and of the ceilings question.
pub mod reply;

// The reply of fetching.
pub mod part;

// The reply of a lookup.
pub mod found;
