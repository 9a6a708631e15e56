// The limits, named as in specs/Limits.antt. Only what reads and writes surveys and stored lists, and the programs, goes by them; no other crate has
// them as bare numbers.
use crate::records::{HEAD_SIZE, PLAN_FIELDS, WIDE_SLOTS};

// Stations of a yard.
pub const MAX_STATIONS: usize = 24;

// Links of a survey.
pub const MAX_LINKS: usize = 40;

// Links of a survey whose trees are written out.
pub const MAX_ENUMERATED: usize = 12;

// Ceiling costs of a link.
pub const MAX_CEILINGS: usize = 3;

// The rank of a ceiling cost.
pub const MAX_RANK: u8 = 3;

// What the ranks have above 1, added up.
pub const MAX_SLACK: usize = 2;

// The sum cost of a link.
pub const MAX_SUM: i32 = 1000000;

pub const MIN_SUM: i32 = -MAX_SUM;

// Links of a tree.
pub const MAX_TREE: usize = MAX_STATIONS - 1;

// Positions, and so plans of a list.
pub const MAX_PLANS: usize = 1600;

// The most bytes that a list buffer needs.
pub const MAX_NEED: usize = HEAD_SIZE + MAX_PLANS * (PLAN_FIELDS + 2 * WIDE_SLOTS + MAX_TREE);

// What the program takes of standard input, in bytes.
pub const MAX_INPUT: usize = 4096;
