// The calls that write a survey, with their replies printed.
ghost use Rattle.std.specs.Prelude.{◌<◌};

use crate::calls::Request;
use crate::reply::status;
use console::Row;
use network::YardFigures;
use network::limits::MAX_LINKS;
use network::records::{LINK_FIELDS, NARROW_SLOTS, REST_SIZE, WIDE_SLOTS, YARD_FIELDS};
use planner::{small_survey, write_survey};
use std::alloc::{AllocError, Global};
use std::io;
use std::io::Write;

// One link too many.
const LINKS: usize = MAX_LINKS + 1;

// More bytes than a survey of as many links as there may be.
const ROOM: usize = 16 * LINKS;

// Bytes of a link record with two ceiling costs, and of one with three.
const NARROW_SIZE: usize = LINK_FIELDS + 2 * NARROW_SLOTS;

const WIDE_SIZE: usize = LINK_FIELDS + 2 * WIDE_SLOTS;

// The figures of links by column, with two ends and two ceiling costs for each of so many links, 0 past the last.
#[derive(Drop)]
struct Columns {
    ends: Vec<u8>,
    sums: Vec<i32>,
    costs: Vec<i16>,
}

impl Columns {
    // Those of link records, which have so many bytes each.
    fn of(records: &[u8], size: usize, alloc: Global) -> Result<Columns, AllocError>
        requires { 0 < size }
    {
        let mut columns = Columns {
            ends: Vec::new(alloc),
            sums: Vec::new(alloc),
            costs: Vec::new(alloc),
        };
        for record in records.chunks_exact(size).take(LINKS) {
            columns.push(record)?;
        }
        columns.ends.resize(2 * LINKS, 0)?;
        columns.costs.resize(2 * LINKS, 0)?;
        Ok(columns)
    }

    // With those of one link record more.
    fn push(&mut self, record: &[u8]) -> Result<(), AllocError> {
        if let [_, _, a, b, s0, s1, s2, s3, x0, x1, y0, y1, ..] = *record {
            self.ends.extend_from_slice(&[a, b])?;
            self.sums.push(i32::from_le_bytes([s0, s1, s2, s3]))?;
            self.costs.push(i16::from_le_bytes([x0, x1]))?;
            self.costs.push(i16::from_le_bytes([y0, y1]))?;
        }
        Ok(())
    }
}

// The first entries of a column, or none where they are not all there.
fn first<T>(column: &[T], count: usize) -> &[T] {
    column.get(..count).unwrap_or(&[])
}

// Byte i of a survey, 0 where it has none.
fn byte_at(survey: &[u8], i: usize) -> u8 {
    survey.get(i).copied().unwrap_or(0)
}

// What the bytes of a yard record say, legal or not.
fn yard_of(survey: &[u8]) -> YardFigures {
    YardFigures {
        n: byte_at(survey, 2),
        p: byte_at(survey, 3),
        k1: byte_at(survey, 4),
        k2: byte_at(survey, 5),
    }
}

// How many bytes a link record of a survey has, and where the link records begin, by the second byte of the mark.
fn layout(mark: u8) -> (usize, usize)
    ensures { 0 < result.0 }
{
    match mark {
        b'E' => (NARROW_SIZE, YARD_FIELDS + NARROW_SLOTS + 1),
        b'F' => (NARROW_SIZE, YARD_FIELDS + NARROW_SLOTS + 1 + REST_SIZE),
        b'G' => (WIDE_SIZE, YARD_FIELDS + WIDE_SLOTS + 1 + REST_SIZE),
        _ => (NARROW_SIZE, YARD_FIELDS + NARROW_SLOTS),
    }
}

impl Request<'_> {
    // Writing the survey of the figures that a survey's bytes have, and the output after it.
    pub fn output(&self, out: &mut Vec<u8>) -> io::Result<()> {
        let Some(mut output) = self.buffer(ROOM)? else {
            return Ok(());
        };
        let (size, from) = layout(byte_at(self.bytes, 1));
        let records = self.bytes.get(from..).unwrap_or(&[]);
        let links = records.len() / size;
        let columns = Columns::of(records, size, self.alloc)?;
        let entries = |i: usize| { self.line.given(i).map_or(2 * links, |count| count as usize) };
        let reply = write_survey(
            self.line.numbers[1],
            yard_of(self.bytes),
            first(&columns.ends, entries(2)),
            first(&columns.sums, links),
            first(&columns.costs, entries(3)),
            &mut output,
        );
        write!(out, "{}{}", status(reply), Row("survey", &output))
    }

    // A small survey, and the output after it.
    pub fn small(&self, out: &mut Vec<u8>) -> io::Result<()> {
        if let Some(mut output) = self.buffer(ROOM)? {
            let reply = small_survey(self.line.numbers[1], &mut output);
            write!(out, "{}{}", status(reply), Row("survey", &output))?;
        }
        Ok(())
    }
}
