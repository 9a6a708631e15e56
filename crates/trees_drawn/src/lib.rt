// Whether a list of links is a tree: t usable links, rising, each of which joins two groups of stations.
#![tactic(auto)]

// One link more of a drawn tree.
pub mod drawing;

// The whole list.
pub mod drawn;
