// All trees of small yards, and what documents 01 and 02 make of them, coded apart: nothing of the planner is used.
#![tactic(auto)]

// The kinds of small yards.
pub mod kinds;

// Small yards, drawn.
pub mod small;

// Stations at rest.
pub mod resting;

// The surveys of yards, and the figures that they are written from.
pub mod surveys;

// All trees of a yard with their costs.
pub mod listing;

// The best tree under bounds.
pub mod answers;

// The list of plans, and its bytes.
pub mod plans;

// The walk, for its solved count and its need.
pub mod visits;

// The index of a list, and lookups in it.
pub mod indexes;
