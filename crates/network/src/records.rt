// The sizes of records, named as in specs/Survey.antt and specs/PlanList.antt.

// Ceilings that the records of document 01 have room for, absent ones included, and those that the records with mark 59 47 have room for.
pub const NARROW_SLOTS: usize = 2;

pub const WIDE_SLOTS: usize = 3;

// Bytes of a yard record with no ranks, and of a link record with no ceiling costs.
pub const YARD_FIELDS: usize = 4;

pub const LINK_FIELDS: usize = 8;

// Bytes that say which stations rest, where a yard record has them.
pub const REST_SIZE: usize = 3;

// Bytes of a list head, and of a plan record with no ceiling costs and no links.
pub const HEAD_SIZE: usize = 10;

pub const PLAN_FIELDS: usize = 6;
