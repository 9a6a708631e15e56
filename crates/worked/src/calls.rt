// The planner's calls, with their replies printed.
use crate::command::Call;
use crate::line::{Line, byte, signed};
use crate::reply::{answered, status};
use console::Row;
use network::limits::MAX_NEED;
use planner::{best, fetch_links, fetch_number, judge, list};
use std::alloc::{AllocError, Global};
use std::io;
use std::io::Write;

// What buffers hold before a call.
pub const DIRT: u8 = 0xFF;

// A line's call: the bytes of a survey or a list, and the line with its numbers.
#[derive(Clone, Copy)]
pub struct Request<'a> {
    pub bytes: &'a [u8],
    pub line: &'a Line,
    pub alloc: Global,
}

impl Request<'_> {
    // A buffer of as many bytes as the first number says, or none where they are more than the call is lent.
    pub fn buffer(&self, most: usize) -> Result<Option<Vec<u8>>, AllocError> {
        let size = self.line.numbers[0] as usize;
        if size <= most {
            Ok(Some(vec![in self.alloc; DIRT; size]?))
        } else {
            Ok(None)
        }
    }

    // The judge, with the links of the line drawn.
    fn judge(&self, out: &mut Vec<u8>) -> io::Result<()> {
        let numbers = self.line.all().iter();
        let drawn: Vec<u8> = numbers.map(|number| byte(*number)).collect(self.alloc)?;
        write!(out, "{}", answered(judge(self.bytes, &drawn)))
    }

    // The ceilings question, and the tree buffer after it.
    fn ask(&self, out: &mut Vec<u8>) -> io::Result<()> {
        let [_, b1, b2, b3, ..] = self.line.numbers;
        if let Some(mut tree) = self.buffer(MAX_NEED)? {
            let reply = best(self.bytes, [signed(b1), signed(b2), signed(b3)], &mut tree);
            write!(out, "{}{}", answered(reply), Row("tree", &tree))?;
        }
        Ok(())
    }

    // The list call, and the list buffer after it.
    fn plans(&self, out: &mut Vec<u8>) -> io::Result<()> {
        if let Some(mut plans) = self.buffer(MAX_NEED)? {
            let reply = list(self.bytes, self.line.numbers[1], &mut plans);
            write!(out, "{}{}", status(reply), Row("list", &plans))?;
        }
        Ok(())
    }

    // The list call, and the first three plans of its list with another byte, and the last that can be asked for.
    fn fetch(&self, out: &mut Vec<u8>) -> io::Result<()> {
        let [_, allowance, index, value, ..] = self.line.numbers;
        let Some(mut plans) = self.buffer(MAX_NEED)? else {
            return Ok(());
        };
        write!(out, "{}", status(list(self.bytes, allowance, &mut plans)))?;
        let Some(changed) = plans.get_mut(index as usize) else {
            return Ok(());
        };
        *changed = byte(value);
        for r in [0, 1, 2, u32::MAX] {
            let links = Row("links", fetch_links(&plans, r));
            write!(out, " number {}{links}", fetch_number(&plans, r))?;
        }
        Ok(())
    }

    // The call, and what is printed of it.
    pub fn print(&self, call: Call, out: &mut Vec<u8>) -> io::Result<()> {
        match call {
            Call::Judge => self.judge(out)?,
            Call::Ask => self.ask(out)?,
            Call::Plans => self.plans(out)?,
            Call::Fetch => self.fetch(out)?,
            Call::Index => self.build(out)?,
            Call::Value => self.look(out)?,
            Call::Many => self.ends(out)?,
            Call::Output => self.output(out)?,
            Call::Number => self.small(out)?,
        }
        writeln!(out)
    }
}
