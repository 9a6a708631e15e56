// The ceilings question on a network: the best tree under bounds, with its links in the tree buffer.
#![tactic(auto)]

// Flags turned into links, rising, in the tree buffer.
pub mod tree_buffer;

// The best tree by patterns and ranks.
pub mod by_patterns;

// The best tree of a network, as flags.
pub mod of_network;

// Its links in the tree buffer.
pub mod links;

// Its costs, or that nothing fits.
pub mod question;
