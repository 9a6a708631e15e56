// The survey of a number: the choices of its links are the digits of the number, that of link 0 first.
ghost use Rattle.std.specs.Prelude.{◌≡◌, ◌+◌, ◌≤◌, ◌<◌, length};
ghost use Rattle.buffers.specs.Overwrite.{overwrite};
ghost use Rattle.network.specs.Survey.{plain};
ghost use Rattle.network.specs.SmallSurveys.{small_bytes, small_link_count, small_survey, small_count};
ghost use Rattle.network.specs.Writing.{survey_at_front};
ghost use Rattle.small_surveys.specs.Numbered.{chosen_records};

use crate::choices::{CHOICES, OPENINGS, SAME_ENDS, write_choice};
use network::YardFigures;
use survey_layout::layout::PLAIN;
use survey_writing::records::write_yard;

// How many links a small survey has.
const LINKS: usize = 3;

// How many small surveys there are.
pub const SURVEYS: u32 = 1728;

// How many bytes each of them has.
pub const BYTES: usize = 42;

// The figures of their yard.
const YARD: YardFigures = YardFigures {
    n: 3,
    p: 1,
    k1: 1,
    k2: 0,
};

// How many surveys have the same choices up to and with link 0, link 1 and link 2.
const SHARES: [u32; LINKS] = [144, 12, 1];

// Writes the link records of survey q behind the yard record.
fn write_choices(out: &mut [u8], q: u32)
    requires { (q < small_count) × (small_bytes ≤ length out.old) }
    ensures { out.new ≡ overwrite out.old plain.yard.size (chosen_records small_link_count q) }
{
    let openings = OPENINGS;
    // By places: a proof knows nothing of what a loop over `chunks_exact_mut` writes.
    let mut at = PLAIN.yard.size;
    for share in SHARES {
        let choice = q / share % CHOICES;
        let opening = openings[(choice / SAME_ENDS) as usize];
        write_choice(out, at, opening, choice);
        at += PLAIN.link.size;
    }
}

// Writes survey q at the front.
pub fn write_numbered(out: &mut [u8], q: u32)
    requires { (q < small_count) × (small_bytes ≤ length out.old) }
    ensures { out.new ≡ survey_at_front (small_survey q) out.old }
{
    write_yard(out, PLAIN, YARD, LINKS);
    write_choices(out, q);
}
