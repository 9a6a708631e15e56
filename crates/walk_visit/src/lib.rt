// One position of the threshold walk: its places and bounds, what its answer settles, and its plan taken into the frontier.
#![tactic(auto)]

// A network with the grid of its positions.
pub mod gridded;

// The sides of the boxes that answers settle.
mod sides;

// What an answer settles, marked.
pub mod settling;

// The plan of an answer taken in.
pub mod taking;
