// Kruskal's method: the links that it keeps, the base, and the groups after each of them, the history.
#![tactic(auto)]

// The base with its history.
pub mod links;
