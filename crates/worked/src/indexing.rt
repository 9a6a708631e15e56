// The calls on an index, with their replies printed.
use crate::calls::Request;
use crate::line::{byte, signed};
use crate::many::list_of;
use crate::reply::{found, status};
use console::Row;
use network::limits::MAX_PLANS;
use planner::{index, index_lookup};
use std::io;
use std::io::Write;

// What an index of one plan too many needs.
const ROOM: usize = 2 * (MAX_PLANS + 1);

// Another byte of a buffer that has it, where the line gives one.
fn change(buffer: &mut [u8], place: Option<u32>, value: Option<u32>) {
    if let (Some(place), Some(value)) = (place, value) {
        if let Some(changed) = buffer.get_mut(place as usize) {
            *changed = byte(value);
        }
    }
}

impl Request<'_> {
    // Building, and the index buffer after it.
    pub fn build(&self, out: &mut Vec<u8>) -> io::Result<()> {
        if let Some(mut built) = self.buffer(ROOM)? {
            let reply = index(self.bytes, &mut built);
            write!(out, "{}{}", status(reply), Row("index", &built))?;
        }
        Ok(())
    }

    // The lookup in an index that was built, and then changed where the line says so.
    pub fn look(&self, out: &mut Vec<u8>) -> io::Result<()> {
        let line = self.line;
        if let Some(mut built) = self.buffer(ROOM)? {
            let _reply = index(self.bytes, &mut built);
            change(&mut built, line.given(2), line.given(3));
            change(&mut built, line.given(4), line.given(5));
            let reply = index_lookup(self.bytes, &built, signed(line.numbers[1]));
            write!(out, "{}", found(reply))?;
        }
        Ok(())
    }

    // Building for a list of many plans, the first and last four bytes of the index buffer after it, and the lookup.
    pub fn ends(&self, out: &mut Vec<u8>) -> io::Result<()> {
        let [_, count, p, value, ..] = self.line.numbers;
        let Some(mut built) = self.buffer(ROOM)? else {
            return Ok(());
        };
        let list = list_of(count, p, self.alloc)?;
        let reply = status(index(&list, &mut built));
        let first = Row("index", built.get(..4).unwrap_or(&[]));
        let last = Row(
            "to",
            built.last_chunk::<4>().map_or(&[][..], |last| &last[..]),
        );
        let lookup = found(index_lookup(&list, &built, signed(value)));
        write!(out, "{reply}{first}{last} {lookup}")
    }
}
