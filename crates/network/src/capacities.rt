// What arrays hold, named as in specs/Capacities.antt: at least what the limits let a survey have. The code between the reader of a survey and the
// calls goes by these alone.

// Stations, and so entries of the groups of stations.
pub const STATIONS_HELD: usize = 24;

// Links.
pub const LINKS_HELD: usize = 40;

// Ceilings.
pub const CEILINGS_HELD: usize = 3;

// Links of a tree.
pub const TREE_HELD: usize = STATIONS_HELD - 1;

// The sets of ceilings whose bounds a link may be above.
pub const PATTERNS_HELD: usize = 1 << CEILINGS_HELD;

// The rank up to which the largest figures are held apart from the others.
pub const RANK_HELD: u8 = 3;

// Positions, and so plans of a list.
pub const PLANS_HELD: usize = 1600;

// What a sum cost is raised by, so that none is below 0.
pub const RAISE: i32 = 1000000;
