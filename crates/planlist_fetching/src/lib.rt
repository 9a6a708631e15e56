// One plan fetched from the bytes of a list.
#![tactic(auto)]

// The number of fetching it, and where its record starts.
pub mod finding;

// Its links, a part of the list.
pub mod fetching;
