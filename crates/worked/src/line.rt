// A line of the input: a word, of which the first letter counts, and numbers.

// The most numbers of a line.
pub const NUMBERS: usize = 32;

// The first letter of a line's word, where it has one; its numbers, 0 where there is none, negative ones and those past 32 bits as their two's
// complement ends; and how many the line has. No vector: calls read numbers that a line leaves out, and those past the most go on with the first.
#[derive(Clone, Copy)]
pub struct Line {
    pub letter: Option<u8>,
    pub numbers: [u32; NUMBERS],
    pub count: usize,
}

// A number with one digit more.
fn with_digit(number: u32, digit: u8, is_negative: bool) -> u32 {
    let tens = number.wrapping_mul(10);
    let units = u32::from(digit.wrapping_sub(b'0'));
    if is_negative {
        tens.wrapping_sub(units)
    } else {
        tens.wrapping_add(units)
    }
}

impl From<&[u8]> for Line {
    // A run of digits is a number, a negative one if a minus stands before it; the word begins with the first byte that is neither digit nor space.
    fn from(text: &[u8]) -> Line {
        let mut line = Line {
            letter: text
                .iter()
                .copied()
                .find(|byte| !byte.is_ascii_digit() && *byte != b' '),
            numbers: [0; NUMBERS],
            count: 0,
        };
        let mut is_negative = false;
        for run in text.chunk_by(|a, b| a.is_ascii_digit() == b.is_ascii_digit()) {
            if run.iter().all(|byte| byte.is_ascii_digit()) {
                line.push(run, is_negative);
            }
            is_negative = run.last() == Some(&b'-');
        }
        line
    }
}

impl Line {
    // With a number more.
    fn push(&mut self, digits: &[u8], is_negative: bool) {
        let number = &mut self.numbers[self.count % NUMBERS];
        *number = digits
            .iter()
            .fold(*number, |n, digit| with_digit(n, *digit, is_negative));
        self.count = self.count.saturating_add(1);
    }

    // Number i, where the line has it.
    pub fn given(&self, i: usize) -> Option<u32> {
        self.numbers.get(i).copied().filter(|_| i < self.count)
    }

    // All its numbers, or none where they are too many.
    pub fn all(&self) -> &[u32] {
        self.numbers.get(..self.count).unwrap_or(&[])
    }
}

// The signed number whose two's complement ends a number.
pub fn signed(number: u32) -> i16 {
    ((number & 0xFFFF) as u16).cast_signed()
}

// The byte that ends a number.
pub fn byte(number: u32) -> u8 {
    (number & 0xFF) as u8
}
