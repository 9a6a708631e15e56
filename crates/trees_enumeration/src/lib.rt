// All trees of a yard, one after another in dictionary order; none is stored.
#![tactic(auto)]

// The links that are taken.
pub mod taken;

// The first tree, and from one to the next.
pub mod growing;

// How many there are.
pub mod counting;

// Tree r, handed out.
pub mod numbering;
