// The yards that are run and not proved. The file `stdin` has the cases, and the file `stdout` what the calls must reply.
//
// A line of the input is a word and numbers. These lines make a survey:
//
//     yard N P K1 K2          a survey begins with this yard record
//     tally N P K1 K2 COUNT   a survey begins with this yard record, which has a link count
//     quiet N P K1 K2 COUNT R a survey begins with this yard record, which has a link count and rest bytes: bit J of R is 1 where station J rests
//     broad N P K1 K2 K3 COUNT R
//                             a survey begins with this yard record, which is that of three ceilings
//     link A B S C1 C2        one link record more
//     edge A B S C1 C2 C3     one link record more with three ceiling costs
//     set I X                 byte I is X
//     cut L                   the survey has L bytes
//
// These make a plan list in its place, to which `set` and `cut` apply as well:
//
//     head COUNT SOLVED T P   a list begins with this head
//     row S Y1 Y2 LINK        one plan record more, with one link
//     detail S Y1 Y2 Y3 LINK  one plan record more with three ceiling costs, with one link
//     walk ALLOWANCE          the list call's list of the survey, with 656 bytes
//
// And these print what stands before their colon, and what a call replies on that survey or list:
//
//     judge LINKS             the judge, with these links drawn
//     ask L B1 B2 B3          the ceilings question, and the tree buffer of L bytes after it
//     plans L ALLOWANCE       the list call, and the list buffer of L bytes after it
//     fetch L ALLOWANCE I X   the list call, and the plans 0, 1, 2 and 4,294,967,295 of its list with byte I as X
//     index L                 building the list's index, and the index buffer of L bytes after it
//     value L V I X J Y       the lookup by V in the index built in L bytes, with byte I as X and byte J as Y, or as it was built
//     many L COUNT P V        building and the lookup on a list of COUNT plans, with the ends of the index buffer of L bytes
//     output L KIND E C       writing the survey of the figures that its bytes have, legal or not, with a yard record of KIND, and the output of L bytes
//                             after it; E ends and C ceiling costs are handed in, or two a link where the line does not say how many
//     number L Q              small survey Q, and the output of L bytes after it
//
// The first letter of the word counts. A line with any other word is a remark.
#![tactic(auto)]

mod calls;
mod command;
mod indexing;
mod line;
mod many;
mod reply;
mod writing;
mod yard;

use calls::Request;
use command::Command;
use line::Line;
use std::alloc::Global;
use std::io;
use std::io::Write;
use yard::Yard;

// More bytes than the input has.
const ROOM: usize = 131072;

// The yard as a line leaves it, with what the line prints.
fn obey(out: &mut Vec<u8>, yard: &mut Yard, line: &Line, alloc: Global) -> io::Result<()> {
    let Some(Ok(command)) = line.letter.map(Command::try_from) else {
        return Ok(());
    };
    let [first, second, ..] = line.numbers;
    match command {
        Command::Begin(record) => yard.begin(record, line),
        Command::Add(record) => yard.add(record, line),
        Command::Walk => yard.walk(first),
        Command::Set => yard.set(first, second),
        Command::Cut => yard.cut(first),
        Command::Call(call) => {
            let bytes = yard.bytes();
            Request { bytes, line, alloc }.print(call, out)?;
        }
    }
    Ok(())
}

// What stands before each colon, and a colon. That a write fails is nothing that the program reports.
fn label<W: Write>(output: &mut W, line: &[u8]) {
    for (at, byte) in line.iter().enumerate() {
        if *byte == b':' {
            let _label = output.write_all(&line[..at]);
            let _colon = output.write_all(b": ");
        }
    }
}

// Prints what the lines print, each as it is read, so that no more than the replies of one line is held: their labels, and what calls reply. A last line
// that does not end is not obeyed.
fn run<W: Write>(input: &[u8], output: &mut W, alloc: Global) -> io::Result<()> {
    let mut yard = Yard::new();
    for line in input.split_inclusive(|byte| *byte == b'\n') {
        label(output, line);
        if let Some(whole) = line.strip_suffix(b"\n") {
            let text = whole.rsplit(|byte| *byte == b':').next().unwrap_or(whole);
            let mut out = Vec::new(alloc);
            obey(&mut out, &mut yard, &Line::from(text), alloc)?;
            let _written = output.write_all(&out);
        }
    }
    Ok(())
}

fn main(rt: HostRuntime) -> io::Result<()> {
    let input = console::read_input(rt.stdin(), ROOM, rt.alloc())?;
    run(&input, &mut io::writer(&rt), rt.alloc())
}
