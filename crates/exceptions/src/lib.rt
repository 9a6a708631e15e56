// Links above bounds, the exceptions: which of them a tree may have, for each ceiling fewer than its rank.
#![tactic(auto)]

// Above which bounds a link lies, its pattern.
pub mod patterns;

// The patterns that the ranks admit, alone and in pairs.
pub mod admitted;

// The normal links, in order.
pub mod select;

// The exceptions that Kruskal's method keeps of each pattern.
pub mod keep;
