// The small surveys in their order: three stations, one ceiling, and three links of twelve choices each.
#![tactic(auto)]

// The choices of a link, and its record.
pub mod choices;

// The survey of a number.
pub mod numbered;
