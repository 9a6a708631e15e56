// The planner's program: a survey on standard input, its plans on standard output.
#![tactic(auto)]

mod print;

use network::limits::MAX_INPUT;
use std::io;

// The input, or as much of it as is taken, is the survey. That a write fails is nothing that the program reports.
fn main(rt: HostRuntime) -> io::Result<()> {
    let survey = console::read_input(rt.stdin(), MAX_INPUT, rt.alloc())?;
    let text = print::plans(&survey, rt.alloc())?;
    let _written = rt.print(text);
    Ok(())
}
