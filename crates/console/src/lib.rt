// What the programs share: the input that they take, and what they print of a call's reply.
#![tactic(auto)]

use network::Refusal;
use std::alloc::Global;
use std::io::{ErrorKind, Read};
use std::{fmt, io};

// The bytes of an input, at most so many. A read that fails ends the input; only a lack of memory is an error.
pub fn read_input<R: Read + Drop>(input: R, most: usize, alloc: Global) -> io::Result<Vec<u8>> {
    let mut bytes = Vec::new(alloc);
    match input.take(most as u64).read_to_end(&mut bytes) {
        Err(error) if error.kind() == ErrorKind::OutOfMemory => Err(error),
        _ => Ok(bytes),
    }
}

// A word and the numbers after it, with a space before each.
#[derive(Clone, Copy)]
pub struct Row<'a>(pub &'a str, pub &'a [u8]);

impl fmt::Display for Row<'_> {
    fn fmt<W: fmt::Write>(&self, f: &mut fmt::Formatter<W>) -> fmt::Result {
        write!(f, " {}", self.0)?;
        for number in self.1 {
            write!(f, " {number}")?;
        }
        Ok(())
    }
}

// A refusal, as `refused N at P`. A wrapper: how a refusal is printed is a matter of the programs, and the type is the planner's.
#[derive(Clone, Copy)]
pub struct Refused(pub Refusal);

impl fmt::Display for Refused {
    fn fmt<W: fmt::Write>(&self, f: &mut fmt::Formatter<W>) -> fmt::Result {
        write!(f, "refused {} at {}", self.0.rule.number(), self.0.place)
    }
}
