// The surveys of yards, and the figures that they are written from: by column, those of the first two ceilings.
use crate::answers::DIRT;
use crate::small::{Form, LINKS, Link, Yard};
use std::alloc::{AllocError, Global};

// The ends, sum costs and ceiling costs of links: there are more ends and ceiling costs than the links have.
#[derive(Drop)]
pub struct Figures {
    pub ends: Vec<u8>,
    pub sums: Vec<i32>,
    pub costs: Vec<i16>,
}

impl Form {
    // The mark that opens the yard record.
    pub fn mark(self) -> [u8; 2] {
        match self {
            Form::Plain => [0x59, 0x44],
            Form::Counted => [0x59, 0x45],
            Form::Resting => [0x59, 0x46],
            Form::Wide => [0x59, 0x47],
        }
    }

    // The mark that opens a link record.
    fn link_mark(self) -> [u8; 2] {
        match self {
            Form::Wide => [0x4C, 0x4D],
            _ => [0x4C, 0x4B],
        }
    }

    // Whether the yard record has a link count.
    fn has_count(self) -> bool {
        self != Form::Plain
    }

    // Whether it has rest bytes.
    fn has_rest(self) -> bool {
        self == Form::Resting || self == Form::Wide
    }
}

impl<'a> Yard<'a> {
    // Rank i, 0 where the ceiling is absent.
    pub fn rank(&self, i: usize) -> u8 {
        self.ranks.get(i).copied().unwrap_or(0)
    }

    // The yard record after the bytes of a survey.
    fn push_yard(&self, survey: &mut Vec<u8>) -> Result<(), AllocError> {
        let [p, ..] = self.ranks.len().to_le_bytes();
        let [m, ..] = self.links.len().to_le_bytes();
        survey.extend_from_slice(&self.form.mark())?;
        survey.extend_from_slice(&[self.stations, p])?;
        for i in 0..self.slots() {
            survey.push(self.rank(i))?;
        }
        if self.form.has_count() {
            survey.push(m)?;
        }
        if self.form.has_rest() {
            survey.extend_from_slice(&[self.rest.bits(), 0, 0])?;
        }
        Ok(())
    }

    // A link record after the bytes of a survey.
    fn push_link(&self, survey: &mut Vec<u8>, link: &Link) -> Result<(), AllocError> {
        survey.extend_from_slice(&self.form.link_mark())?;
        survey.extend_from_slice(&link.ends)?;
        survey.extend_from_slice(&link.sum.to_le_bytes())?;
        for cost in link.costs.iter().take(self.slots()) {
            survey.extend_from_slice(&cost.to_le_bytes())?;
        }
        Ok(())
    }

    // The survey of the yard.
    pub fn survey(&self, alloc: Global) -> Result<Vec<u8>, AllocError> {
        let mut survey = Vec::new(alloc);
        self.push_yard(&mut survey)?;
        for link in self.links {
            self.push_link(&mut survey, link)?;
        }
        Ok(survey)
    }

    // The same yard with the other form that has no rest bytes.
    pub fn in_other_form(self) -> Yard<'a> {
        let form = match self.form {
            Form::Plain => Form::Counted,
            _ => Form::Plain,
        };
        Yard { form, ..self }
    }

    // The figures of the yard.
    pub fn figures(&self, alloc: Global) -> Result<Figures, AllocError> {
        let mut figures = Figures {
            ends: Vec::new(alloc),
            sums: Vec::new(alloc),
            costs: Vec::new(alloc),
        };
        for link in self.links {
            let [first, second, _] = link.costs;
            figures.ends.extend_from_slice(&link.ends)?;
            figures.sums.push(link.sum)?;
            figures.costs.extend_from_slice(&[first, second])?;
        }
        figures.ends.resize(2 * LINKS, DIRT)?;
        figures.costs.resize(2 * LINKS, i16::from(DIRT))?;
        Ok(figures)
    }
}
