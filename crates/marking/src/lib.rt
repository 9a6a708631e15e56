// The positions of the walk: the values that each ceiling goes through, and marks of what is settled.
#![tactic(auto)]

// The place of a value.
pub mod place;

// The different values of a ceiling, falling.
pub mod values;

// A box of positions marked.
pub mod mark;

// The values of all ceilings, and positions as numbers with a digit for each ceiling.
pub mod grid;
