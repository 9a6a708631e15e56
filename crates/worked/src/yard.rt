// Surveys and plan lists put together record by record.
use crate::calls::DIRT;
use crate::command::Record;
use crate::line::{Line, byte};
use network::limits::MAX_LINKS;
use planner::list;

// More bytes than a survey of one link too many has.
const ROOM: usize = 16 * (MAX_LINKS + 1);

// How many numbers a record has at most.
const FIELDS: usize = 7;

pub const HEAD_MARK: [u8; 2] = *b"PH";

pub const PLAN_MARK: [u8; 2] = *b"PL";

pub const WIDE_PLAN_MARK: [u8; 2] = *b"PM";

impl Record {
    // The mark that opens the record.
    fn mark(self) -> [u8; 2] {
        match self {
            Record::Yard => *b"YD",
            Record::Tally => *b"YE",
            Record::Quiet => *b"YF",
            Record::Broad => *b"YG",
            Record::Link => *b"LK",
            Record::Edge => *b"LM",
            Record::Head => HEAD_MARK,
            Record::Row => PLAN_MARK,
            Record::Detail => WIDE_PLAN_MARK,
        }
    }

    // How many bytes each number of a line takes in the record, none past those that it has.
    fn sizes(self) -> [usize; FIELDS] {
        match self {
            Record::Yard => [1, 1, 1, 1, 0, 0, 0],
            Record::Tally => [1, 1, 1, 1, 1, 0, 0],
            Record::Quiet => [1, 1, 1, 1, 1, 3, 0],
            Record::Broad => [1, 1, 1, 1, 1, 1, 3],
            Record::Link => [1, 1, 4, 2, 2, 0, 0],
            Record::Edge => [1, 1, 4, 2, 2, 2, 0],
            Record::Head => [2, 4, 1, 1, 0, 0, 0],
            Record::Row => [4, 2, 2, 1, 0, 0, 0],
            Record::Detail => [4, 2, 2, 2, 1, 0, 0],
        }
    }
}

// The bytes of a survey or list, of which the first `len` count. No vector: `cut` may count bytes past them once more, which a vector would forget.
#[derive(Drop)]
pub struct Yard {
    bytes: [u8; ROOM],
    len: usize,
}

impl Yard {
    // A survey without bytes.
    pub fn new() -> Yard {
        Yard {
            bytes: [0; ROOM],
            len: 0,
        }
    }

    // The bytes that count, or none where there are not so many.
    pub fn bytes(&self) -> &[u8] {
        self.bytes.get(..self.len).unwrap_or(&[])
    }

    // A number of so many bytes more. All four of it are written, where there is room: those past its size do not count.
    fn put(&mut self, number: u32, size: usize) {
        if let Some(rest) = self.bytes.get_mut(self.len..) {
            if let Some(place) = rest.first_chunk_mut::<4>() {
                *place = number.to_le_bytes();
            }
        }
        self.len = self.len.saturating_add(size);
    }

    // A record more.
    pub fn add(&mut self, record: Record, line: &Line) {
        self.put(u32::from(u16::from_le_bytes(record.mark())), 2);
        for (number, size) in line.numbers.iter().zip(record.sizes()) {
            self.put(*number, size);
        }
    }

    // A record alone.
    pub fn begin(&mut self, record: Record, line: &Line) {
        *self = Yard::new();
        self.add(record, line);
    }

    // The list of its survey in all the room, under an allowance.
    pub fn walk(&mut self, allowance: u32) {
        let mut plans = [DIRT; ROOM];
        let _reply = list(self.bytes(), allowance, &mut plans);
        self.bytes = plans;
        self.len = ROOM;
    }

    // Another byte at an index.
    pub fn set(&mut self, index: u32, value: u32) {
        self.bytes[index as usize % ROOM] = byte(value);
    }

    // Another length.
    pub fn cut(&mut self, len: u32) {
        self.len = len as usize;
    }
}
