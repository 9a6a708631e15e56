// The replies as text.
use console::Refused;
use network::{Costs, Refusal, Status};
use std::fmt;
use std::fmt::Display;

// What a call replies, or its refusal.
#[derive(Clone, Copy)]
pub struct Reply<T>(Result<T, Refusal>);

// The sum, and all ceiling costs, absent ones as well.
#[derive(Clone, Copy)]
pub struct Figures(Costs);

// A plan's number.
#[derive(Clone, Copy)]
pub struct PlanNumber(u16);

// The number and place of a call that only fills a buffer.
#[derive(Clone, Copy)]
pub struct Filled(Status);

impl<T: Display> Display for Reply<T> {
    fn fmt<W: fmt::Write>(&self, f: &mut fmt::Formatter<W>) -> fmt::Result {
        match &self.0 {
            Ok(value) => write!(f, "{value}"),
            Err(refusal) => write!(f, "{}", Refused(*refusal)),
        }
    }
}

impl Display for Figures {
    fn fmt<W: fmt::Write>(&self, f: &mut fmt::Formatter<W>) -> fmt::Result {
        write!(f, "{}", self.0.sum)?;
        for y in &self.0.y {
            write!(f, " {y}")?;
        }
        Ok(())
    }
}

impl Display for PlanNumber {
    fn fmt<W: fmt::Write>(&self, f: &mut fmt::Formatter<W>) -> fmt::Result {
        write!(f, "plan {}", self.0)
    }
}

impl Display for Filled {
    fn fmt<W: fmt::Write>(&self, f: &mut fmt::Formatter<W>) -> fmt::Result {
        write!(f, "number {} place {}", self.0.number, self.0.place)
    }
}

// A reply of costs.
pub fn answered(reply: Result<Costs, Refusal>) -> Reply<Figures> {
    Reply(reply.map(Figures))
}

// The reply of a lookup.
pub fn found(reply: Result<u16, Refusal>) -> Reply<PlanNumber> {
    Reply(reply.map(PlanNumber))
}

// The reply of a call that only fills a buffer.
pub fn status(reply: Result<(), Refusal>) -> Filled {
    Filled(Status::from(reply))
}
