// Where the fields of a survey's records stand, counted from the start of the record.

// In the yard record: n, p, and the ranks, a byte each.
pub const STATIONS: usize = 2;

pub const CEILINGS: usize = 3;

pub const RANKS: usize = 4;

// In a link record: the ends, a byte each, s, and the ceiling costs, two bytes each.
pub const ENDS: usize = 2;

pub const SUM: usize = 4;

pub const COSTS: usize = 8;
