// Small yards, drawn by numbers. Eight ceiling costs occur, and eight sum costs.
ghost use Rattle.std.specs.Prelude.{◌≤◌};

use crate::kinds::{COUNT, KINDS, Kind};
use crate::resting::Stations;
use std::alloc::{AllocError, Global};

// The most ceilings of a yard.
pub const CEILINGS: usize = 3;

// The most links of a yard.
pub const LINKS: usize = 7;

// The stations that a link may join: the first n * (n - 1) pairs are those of n stations.
const PAIRS: [[u8; 2]; 20] = [
    [0, 1],
    [1, 0],
    [0, 2],
    [2, 0],
    [1, 2],
    [2, 1],
    [0, 3],
    [3, 0],
    [1, 3],
    [3, 1],
    [2, 3],
    [3, 2],
    [0, 4],
    [4, 0],
    [1, 4],
    [4, 1],
    [2, 4],
    [4, 2],
    [3, 4],
    [4, 3],
];

// The ceiling costs.
const COSTS: [i16; 8] = [-32768, -256, -1, 0, 1, 255, 256, 32767];

// The sum costs.
const SUMS: [i32; 8] = [-1000000, -65537, -2, -1, 0, 1, 65537, 1000000];

// The sum costs that are drawn, in four ways: those of 0 and more, negative ones alone, small ones that often add up to the same, and all of them.
const WAYS: [&'static [i32]; 4] = [
    &[0, 1, 65537, 1000000],
    &[-1000000, -65537, -2, -1],
    &[-2, -1, 0, 1],
    &SUMS,
];

// A link between two stations, with its sum cost and its ceiling costs, 0 where a ceiling is absent.
#[derive(Clone, Copy)]
pub struct Link {
    pub ends: [u8; 2],
    pub sum: i32,
    pub costs: [i16; CEILINGS],
}

// Which yard record a survey has: the first one, the one with a link count, the one with rest bytes as well, and the one of three ceilings.
#[derive(Clone, Copy, PartialEq, Eq)]
pub enum Form {
    Plain,
    Counted,
    Resting,
    Wide,
}

// A yard, with its stations at rest, and the form of its survey.
#[derive(Clone, Copy)]
pub struct Yard<'a> {
    pub stations: u8,
    pub ranks: &'a [u8],
    pub links: &'a [Link],
    pub rest: Stations,
    pub form: Form,
}

// A yard that was drawn: its kind, its links, and the form of its survey.
#[derive(Drop)]
pub struct Drawn {
    kind: Kind,
    links: Vec<Link>,
    form: Form,
}

// The number after x in a sequence that looks drawn.
pub fn next(x: u64) -> u64 {
    let y = x ^ (x << 13);
    let z = y ^ (y >> 7);
    z ^ (z << 17)
}

// The item that a drawn byte picks, where there is one.
fn pick<T: Copy>(items: &[T], byte: u8) -> Option<T> {
    let at = usize::from(byte).checked_rem(items.len())?;
    items.get(at).copied()
}

// How many links: up to 7, and 7 most often; none where there is one station.
fn link_count(x: u64, stations: u8) -> usize {
    if stations == 1 {
        return 0;
    }
    (x as usize % 16).min(LINKS)
}

// Which form a survey with p ceilings has: one of the first two, as drawn, or that of three.
fn form_of(x: u64, p: usize) -> Form {
    if p == CEILINGS {
        Form::Wide
    } else if x / 16 % 2 == 0 {
        Form::Plain
    } else {
        Form::Counted
    }
}

// The numbers that the figures of links are drawn by, in each a byte for every link.
#[derive(Clone, Copy)]
struct Bytes {
    pairs: [u8; 8],
    sums: [u8; 8],
    costs: [[u8; 8]; CEILINGS],
}

impl Bytes {
    // The numbers after x.
    fn after(x: u64) -> Bytes {
        let pairs = next(x);
        let sums = next(pairs);
        let first = next(sums);
        let second = next(first);
        let third = next(second);
        Bytes {
            pairs: pairs.to_le_bytes(),
            sums: sums.to_le_bytes(),
            costs: [first, second, third].map(|number| number.to_le_bytes()),
        }
    }

    // Link e of a yard of a kind, with sum costs in one of the ways.
    fn link(&self, e: usize, kind: Kind, way: usize) -> Option<Link> {
        let Kind(stations, ranks) = kind;
        let n = usize::from(stations);
        let pairs = PAIRS.get(..n.saturating_mul(n.saturating_sub(1)))?;
        let mut costs = [0; CEILINGS];
        for ((cost, bytes), _) in costs.iter_mut().zip(&self.costs).zip(ranks) {
            *cost = pick(&COSTS, *bytes.get(e)?)?;
        }
        Some(Link {
            ends: pick(pairs, *self.pairs.get(e)?)?,
            sum: pick(WAYS[way % 4], *self.sums.get(e)?)?,
            costs,
        })
    }
}

impl Drawn {
    // The yard of a number, every kind in its turn, and then once more with other sum costs; whether its links are counted is drawn.
    pub fn new(i: usize, x: u64, alloc: Global) -> Result<Drawn, AllocError> {
        let kind = KINDS[i % COUNT];
        let bytes = Bytes::after(x);
        let links = (0..link_count(x, kind.0))
            .filter_map(|e| bytes.link(e, kind, i / COUNT))
            .collect(alloc)?;
        Ok(Drawn {
            kind,
            links,
            form: form_of(x, kind.1.len()),
        })
    }

    // The yard, in which no station is at rest.
    pub fn yard(&self) -> Yard<'_> {
        Yard {
            stations: self.kind.0,
            ranks: self.kind.1,
            links: &self.links,
            rest: Stations::none(),
            form: self.form,
        }
    }
}

impl Yard<'_> {
    // How many ceilings the records of the yard have room for.
    pub fn slots(&self) -> usize
        ensures { result ≤ 3 }
    {
        self.ranks.len().clamp(2, CEILINGS)
    }
}
