// What a line asks for.

// What is done with the bytes that the lines have put together.
#[derive(Clone, Copy, PartialEq, Eq)]
pub enum Command {
    // They are this record alone.
    Begin(Record),
    // This record follows them.
    Add(Record),
    // They are the list call's list of the survey that they were.
    Walk,
    // One of them is another.
    Set,
    // Another number of them counts.
    Cut,
    // A call reads them.
    Call(Call),
}

// The records of surveys and plan lists, by the word of their line.
#[derive(Clone, Copy, PartialEq, Eq)]
pub enum Record {
    Yard,
    Tally,
    Quiet,
    Broad,
    Link,
    Edge,
    Head,
    Row,
    Detail,
}

// The calls, by the word of their line.
#[derive(Clone, Copy, PartialEq, Eq)]
pub enum Call {
    Judge,
    Ask,
    Plans,
    Fetch,
    Index,
    Value,
    Many,
    Output,
    Number,
}

// A line that is a remark.
#[derive(Clone, Copy, PartialEq, Eq)]
pub struct Remark;

impl TryFrom<u8> for Command {
    type Error = Remark;

    // What the first letter of a word stands for.
    fn try_from(letter: u8) -> Result<Command, Remark> {
        Ok(match letter {
            b'y' => Command::Begin(Record::Yard),
            b't' => Command::Begin(Record::Tally),
            b'q' => Command::Begin(Record::Quiet),
            b'b' => Command::Begin(Record::Broad),
            b'h' => Command::Begin(Record::Head),
            b'l' => Command::Add(Record::Link),
            b'e' => Command::Add(Record::Edge),
            b'r' => Command::Add(Record::Row),
            b'd' => Command::Add(Record::Detail),
            b'w' => Command::Walk,
            b's' => Command::Set,
            b'c' => Command::Cut,
            b'j' => Command::Call(Call::Judge),
            b'a' => Command::Call(Call::Ask),
            b'p' => Command::Call(Call::Plans),
            b'f' => Command::Call(Call::Fetch),
            b'i' => Command::Call(Call::Index),
            b'v' => Command::Call(Call::Value),
            b'm' => Command::Call(Call::Many),
            b'o' => Command::Call(Call::Output),
            b'n' => Command::Call(Call::Number),
            _ => return Err(Remark),
        })
    }
}
