// The choices of a link in a small survey, in their order: by the ends, then by s, then by c1.
ghost use Rattle.std.specs.Prelude.{[], ◌≡◌, ◌+◌, ◌/◌, ◌≤◌, ◌<◌, get_or, length};
ghost use Rattle.buffers.specs.Overwrite.{overwrite};
ghost use Rattle.network.specs.SmallSurveys.{choice_count, choices};
ghost use Rattle.network.specs.Survey.{plain};
ghost use Rattle.network.specs.Writing.{link_bytes, no_link};
ghost use Rattle.survey_roundtrip.specs.Layouts.{written_link};
ghost use Rattle.small_surveys.specs.Choices.{openings};

use buffers::copies::copy_in;
use encoding::writes::write_u32;
use survey_layout::fields::{COSTS, SUM};

// How many choices there are.
pub const CHOICES: u32 = 12;

// How a link record opens, with its mark and its ends, in the order of the ends.
pub const OPENINGS: [[u8; 4]; 3] = [*b"LK\x00\x01", *b"LK\x00\x02", *b"LK\x01\x02"];

// How many choices have the same ends, and how many of these the same s.
pub const SAME_ENDS: u32 = 4;

const SAME_SUM: u32 = 2;

// Writes the record of a choice: how it opens, then s, then c1 and c2, whose four bytes are those of c1, since it is 0 or 1 and c2 is 0. The caller looks
// up how it opens, in a table that stands before its loop: read here it would be made anew for each link.
pub fn write_choice(out: &mut [u8], at: usize, opening: [u8; 4], choice: u32)
    requires { (choice < choice_count) × (opening ≡ get_or openings (choice / 4) []) × (at + written_link ≤ length out.old) }
    ensures { out.new ≡ overwrite out.old at (link_bytes plain.link.mark (get_or choices choice no_link)) }
{
    let sum = choice % SAME_ENDS / SAME_SUM;
    let c1 = choice % SAME_SUM;
    copy_in(out, at, &opening);
    write_u32(out, at + SUM, sum);
    write_u32(out, at + COSTS, c1);
}
