// What the program prints for a survey.
use console::{Refused, Row};
use network::Costs;
use network::limits::{MAX_NEED, MAX_PLANS};
use planner::{fetch_links, fetch_number, judge, list};
use std::alloc::{AllocError, Global};
use std::fmt;

// What the head of a list says: how many plans it has, how many positions were solved for it, and of how many ceilings.
#[derive(Clone, Copy)]
struct Head {
    plans: u16,
    solved: u32,
    ceilings: usize,
}

impl Head {
    // The head of a list that has one.
    fn of(list: &[u8]) -> Option<Head> {
        let [_, _, c0, c1, s0, s1, s2, s3, _, p, ..] = list else {
            return None;
        };
        Some(Head {
            plans: u16::from_le_bytes([*c0, *c1]),
            solved: u32::from_le_bytes([*s0, *s1, *s2, *s3]),
            ceilings: usize::from(*p),
        })
    }
}

impl fmt::Display for Head {
    fn fmt<W: fmt::Write>(&self, f: &mut fmt::Formatter<W>) -> fmt::Result {
        write!(f, "plans {} solved {}", self.plans, self.solved)
    }
}

// A plan of a list: its costs, of which those of the ceilings that are present are printed, and its links.
#[derive(Clone, Copy)]
struct Plan<'a> {
    costs: Costs,
    ceilings: usize,
    links: &'a [u8],
}

impl<'a> Plan<'a> {
    // Plan r of a survey's list, with the costs that the judge gives it.
    fn fetched(survey: &[u8], list: &'a [u8], r: u32, ceilings: usize) -> Option<Plan<'a>> {
        if fetch_number(list, r) != 0 {
            return None;
        }
        let links = fetch_links(list, r);
        let Ok(costs) = judge(survey, links) else {
            return None;
        };
        Some(Plan {
            costs,
            ceilings,
            links,
        })
    }
}

impl fmt::Display for Plan<'_> {
    fn fmt<W: fmt::Write>(&self, f: &mut fmt::Formatter<W>) -> fmt::Result {
        write!(f, "{}", self.costs.sum)?;
        for y in self.costs.y.iter().take(self.ceilings) {
            write!(f, " {y}")?;
        }
        write!(f, "{}", Row("links", self.links))
    }
}

// The head of a survey's list and its plans, a line each.
fn lines(survey: &[u8], list: &[u8], alloc: Global) -> Result<String, AllocError> {
    let mut text = String::new(alloc);
    if let Some(head) = Head::of(list) {
        writeln!(text, "{head}")?;
        for r in 0..u32::from(head.plans) {
            if let Some(plan) = Plan::fetched(survey, list, r, head.ceilings) {
                writeln!(text, "{plan}")?;
            }
        }
    }
    Ok(text)
}

// The plans of a survey, or its refusal. The buffer has the most bytes that a list needs, and all positions may be solved.
pub fn plans(survey: &[u8], alloc: Global) -> Result<String, AllocError> {
    let mut buffer = vec![in alloc; 0u8; MAX_NEED]?;
    match list(survey, MAX_PLANS as u32, &mut buffer) {
        Ok(()) => lines(survey, &buffer, alloc),
        Err(refusal) => format!(in alloc; "{}\n", Refused(refusal)),
    }
}
