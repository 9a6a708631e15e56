// The records of a survey whose length is that of its layout.
ghost use Rattle.std.specs.Prelude.{◌≡◌, ◌+◌, ◌≤◌, ◌<◌, length};
ghost use Rattle.network.specs.Survey.{cost_bits_in, cost_in, end_in, link_size, link_start, sum_in};
ghost use Rattle.network.specs.Accepted.{Whole};
ghost use Rattle.network.specs.Layouts.{Roomy};

use crate::fields::{COSTS, ENDS, SUM};
use encoding::numbers::read_u16;
use encoding::signed::{read_i16, read_i32};
use network::Layout;

// A yard record in a layout, at the front of a survey.
#[derive(Clone, Copy)]
pub struct YardRecord<'a> {
    pub bytes: &'a [u8],
    pub layout: Layout,
    pub ghost roomy: { Roomy layout },
    pub ghost inside: { layout.yard.size ≤ length bytes.now },
}

// A link record, which starts at an index of a survey's bytes and has room for so many ceiling costs.
#[derive(Clone, Copy)]
pub struct LinkRecord<'a> {
    pub bytes: &'a [u8],
    pub at: usize,
    pub slots: u8,
    pub ghost inside: { at + link_size slots ≤ length bytes.now },
}

impl LinkRecord<'_> {
    // Its two ends.
    pub fn ends(self) -> (u8, u8)
        ensures { (result.0 ≡ end_in self.entry.bytes.now self.entry.at 0) × (result.1 ≡ end_in self.entry.bytes.now self.entry.at 1) }
    {
        (self.bytes[self.at + ENDS], self.bytes[self.at + ENDS + 1])
    }

    // Its sum cost.
    pub fn sum(self) -> i32
        ensures { result ≡ sum_in self.entry.bytes.now self.entry.at }
    {
        read_i32(self.bytes, self.at + SUM)
    }

    // Its cost by ceiling j.
    pub fn cost(self, j: usize) -> i16
        requires { j < self.slots }
        ensures { result ≡ cost_in self.entry.bytes.now self.entry.at j }
    {
        read_i16(self.bytes, self.at + COSTS + 2 * j)
    }

    // The bits of its cost by ceiling j.
    pub fn cost_bits(self, j: usize) -> u16
        requires { j < self.slots }
        ensures { result ≡ cost_bits_in self.entry.bytes.now self.entry.at j }
    {
        read_u16(self.bytes, self.at + COSTS + 2 * j)
    }
}

// A survey in a layout: its yard record and m link records, which are all its bytes.
#[derive(Clone, Copy)]
pub struct Records<'a> {
    pub bytes: &'a [u8],
    pub layout: Layout,
    pub m: usize,
    pub ghost whole: { Whole bytes.now layout m },
}

impl<'a> Records<'a> {
    // The yard record.
    pub fn yard(self) -> YardRecord<'a>
        ensures { (result.bytes.now ≡ self.entry.bytes.now) × (result.layout ≡ self.entry.layout) }
    {
        YardRecord {
            bytes: self.bytes,
            layout: self.layout,
        }
    }

    // The record of link i.
    pub fn link(self, i: usize) -> LinkRecord<'a>
        requires { i < self.m }
        ensures { (result.bytes.now ≡ self.entry.bytes.now)
            × (result.at ≡ link_start self.entry.layout i)
            × (result.slots ≡ self.entry.layout.slots) }
    {
        LinkRecord {
            bytes: self.bytes,
            at: self.layout.yard.size + i * self.layout.link.size,
            slots: self.layout.slots,
        }
    }
}
