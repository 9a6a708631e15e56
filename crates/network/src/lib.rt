// The data model that all code shares. What the values mean, and document 01 as definitions, is in specs/;
// the theorems on it are in proofs/.
#![tactic(auto)]

use crate::capacities::CEILINGS_HELD;

// What arrays hold.
pub mod capacities;

// What a survey may have.
pub mod limits;

// Why a call declines.
pub mod refusals;

// The sizes of records.
pub mod records;

// A network as the code hands it on.
pub mod net;

pub use net::Net;
pub use refusals::{Refusal, Rule, Status};

// What is small of a yard, which goes by value: n stations, of which those rest whose bits are set in `rest`, p ceilings with their ranks k, of which
// the first p count, m links, and t, the links of a tree. Its columns go beside it as slices of just their length: link e joins the stations ends[2 * e]
// and ends[2 * e + 1], has the sum cost sums[e] - RAISE, which is kept raised so that none is below 0, and costs[i * m + e] is its cost by ceiling i.
#[derive(Clone, Copy)]
pub struct Shape {
    pub n: u8,
    pub p: u8,
    pub k: [u8; CEILINGS_HELD],
    pub rest: u32,
    pub m: usize,
    pub t: u8,
}

// The figures of a yard record that is written: n stations, p ceilings, and the ranks k1 and k2, 0 where a ceiling is absent.
#[repr(C)]
#[derive(Clone, Copy)]
pub struct YardFigures {
    pub n: u8,
    pub p: u8,
    pub k1: u8,
    pub k2: u8,
}

// The costs of a plan: the sum, and the ceiling costs y, 0 where a ceiling is absent.
#[derive(Clone, Copy)]
pub struct Costs {
    pub sum: i32,
    pub y: [i16; CEILINGS_HELD],
}

// What a record is: the mark that opens it, and its size in bytes.
#[derive(Clone, Copy)]
pub struct Form {
    pub mark: [u8; 2],
    pub size: usize,
}

// What the records of a survey are: its yard record, the fewest ceilings that it may have, how many its records have room for, which are the most, the
// places of the link count and of the stations at rest in the yard record, if it has them, and its link records.
#[derive(Clone, Copy)]
pub struct Layout {
    pub yard: Form,
    pub fewest: u8,
    pub slots: u8,
    pub count: Option<u8>,
    pub rest: Option<u8>,
    pub link: Form,
}
