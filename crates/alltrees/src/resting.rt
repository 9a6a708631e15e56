// Stations at rest: which links are usable, how many links a tree has, and what declines the yard.
use crate::small::{Form, Link, Yard};

// A set of stations: bit j is 1 where station j is in it.
#[derive(Clone, Copy, PartialEq, Eq)]
pub struct Stations(u8);

// Why a yard is declined: no station works or one is at rest that the yard does not have, or a rank is above t.
#[derive(Clone, Copy, PartialEq, Eq)]
pub enum Declined {
    Rest,
    Ranks,
}

impl Stations {
    // No station.
    pub fn none() -> Stations {
        Stations(0)
    }

    // The set with these bits.
    pub fn of_bits(bits: u8) -> Stations {
        Stations(bits)
    }

    // Its bits.
    pub fn bits(self) -> u8 {
        self.0
    }

    // The first n stations.
    pub fn first(n: u8) -> Stations {
        Stations(1u8.wrapping_shl(u32::from(n)).wrapping_sub(1))
    }

    // One station.
    fn one(station: u8) -> Stations {
        Stations(1u8.wrapping_shl(u32::from(station)))
    }

    // Whether no station is in it.
    pub fn is_empty(self) -> bool {
        self.0 == 0
    }

    // How many stations are in it.
    pub fn len(self) -> u32 {
        self.0.count_ones()
    }

    // These stations and others.
    pub fn with(self, others: Stations) -> Stations {
        Stations(self.0 | others.0)
    }

    // These stations but for others.
    pub fn without(self, others: Stations) -> Stations {
        Stations(self.0 & !others.0)
    }

    // Whether others are among them.
    pub fn overlaps(self, others: Stations) -> bool {
        self.0 & others.0 != 0
    }

    // The lowest of them alone.
    pub fn lowest(self) -> Stations {
        Stations(self.0 & self.0.wrapping_neg())
    }
}

impl Link {
    // Both stations.
    pub fn both(&self) -> Stations {
        let [a, b] = self.ends;
        Stations::one(a).with(Stations::one(b))
    }
}

impl<'a> Yard<'a> {
    // The yard with these stations at rest, as a survey with rest bytes.
    pub fn at_rest(self, rest: Stations) -> Yard<'a> {
        let form = match self.form {
            Form::Wide => Form::Wide,
            _ => Form::Resting,
        };
        Yard { rest, form, ..self }
    }

    // The stations that work.
    pub fn working(&self) -> Stations {
        Stations::first(self.stations).without(self.rest)
    }

    // Link e, where the yard has it and both of its stations work.
    pub fn usable(&self, e: u8) -> Option<Link> {
        let link = self.links.get(usize::from(e)).copied()?;
        if link.both().without(self.working()).is_empty() {
            Some(link)
        } else {
            None
        }
    }

    // How many links a tree has, where a station works.
    pub fn tree_size(&self) -> usize {
        (self.working().len() as usize).saturating_sub(1)
    }

    // Why the yard is declined, if it is.
    pub fn declined(&self) -> Option<Declined> {
        let strangers = self.rest.without(Stations::first(self.stations));
        if self.working().is_empty() || !strangers.is_empty() {
            return Some(Declined::Rest);
        }
        let t = self.tree_size();
        if self.ranks.iter().any(|rank| t < usize::from(*rank)) {
            return Some(Declined::Ranks);
        }
        None
    }
}
