// What was counted, and how often the planner differed.
use std::fmt;

#[derive(Clone, Copy, Default)]
pub struct Tally {
    yards: usize,
    resting: usize,
    declined: usize,
    trees: usize,
    judged: usize,
    questions: usize,
    lists: usize,
    plans: usize,
    lookups: usize,
    written: usize,
    differences: usize,
}

// A count with so many more.
fn add(count: &mut usize, more: usize) {
    *count = count.saturating_add(more);
}

impl Tally {
    // With a yard of so many trees and plans, 256 questions, its list, the list's index, a lookup for each bound, and its survey written with both kinds
    // of yard record and listed with the other one, or refused.
    pub fn add_yard(&mut self, trees: usize, plans: usize) {
        add(&mut self.yards, 1);
        add(&mut self.trees, trees);
        add(&mut self.questions, 256);
        add(&mut self.lists, 1);
        add(&mut self.plans, plans);
        add(&mut self.lookups, 16);
        add(&mut self.written, 2);
    }

    // With a survey that has rest bytes, so many trees and plans, so many sets of links judged, a question for each bound, and its list.
    pub fn add_resting(&mut self, trees: usize, plans: usize, judged: usize) {
        add(&mut self.resting, 1);
        add(&mut self.trees, trees);
        add(&mut self.judged, judged);
        add(&mut self.questions, 16);
        add(&mut self.lists, 1);
        add(&mut self.plans, plans);
    }

    // With a survey that has rest bytes and is declined.
    pub fn add_declined(&mut self) {
        add(&mut self.resting, 1);
        add(&mut self.declined, 1);
    }

    // With so many differences more.
    pub fn add_differences(&mut self, more: usize) {
        add(&mut self.differences, more);
    }
}

impl fmt::Display for Tally {
    fn fmt<W: fmt::Write>(&self, f: &mut fmt::Formatter<W>) -> fmt::Result {
        writeln!(f, "yards {}", self.yards)?;
        writeln!(f, "surveys with rest bytes {}", self.resting)?;
        writeln!(f, "of them declined {}", self.declined)?;
        writeln!(f, "trees {}", self.trees)?;
        writeln!(f, "sets of links judged {}", self.judged)?;
        writeln!(f, "questions {}", self.questions)?;
        writeln!(f, "lists {}", self.lists)?;
        writeln!(f, "plans {}", self.plans)?;
        writeln!(f, "indexes {}", self.yards)?;
        writeln!(f, "lookups {}", self.lookups)?;
        writeln!(f, "surveys written or refused {}", self.written)?;
        writeln!(f, "differences {}", self.differences)
    }
}
