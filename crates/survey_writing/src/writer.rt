// A survey written from full columns of figures into a lent buffer.
ghost use Rattle.std.specs.Prelude.{◌≡◌, ◌+◌, ◌*◌, ◌≤◌, length};
ghost use Rattle.network.specs.Writing.{survey_at_front, survey_in};
ghost use Rattle.buffers.specs.Overwrite.{overwrite};
ghost use Rattle.survey_roundtrip.specs.Fields.{Met};
ghost use Rattle.survey_roundtrip.specs.Layouts.{Writable, written_link};
ghost use Rattle.survey_roundtrip.specs.Written.{records_to};
ghost use Rattle.survey_writing.specs.Figures.{figures_of};
ghost use Rattle.survey_writing.specs.Filled.{full_after, full_checked};

use crate::figures::check_links;
use crate::records::{write_link, write_yard};
use crate::survey::SurveyFigures;
use network::{Layout, Refusal, Rule};
use survey_rules::checks::refuse_if;

// Writes the records of all links behind the yard record.
fn write_links(out: &mut [u8], l: Layout, f: SurveyFigures)
    requires { Writable l × (l.yard.size + length f.sums.now * written_link ≤ length out.old) }
    ensures { out.new
        ≡ overwrite out.old l.yard.size
        (records_to l.link.mark f.entry.ends.now f.entry.sums.now f.entry.costs.now (length f.entry.sums.now)) }
{
    // By places: a proof knows nothing of what a loop over `chunks_exact_mut` writes.
    let mut at = l.yard.size;
    for i in 0..f.sums.len() {
        write_link(out, at, l.link.mark, f.link(i));
        at += l.link.size;
    }
}

// Writes the survey of the figures at the front.
fn write_records(out: &mut [u8], l: Layout, f: SurveyFigures)
    requires { Writable l × (l.yard.size + length f.sums.now * written_link ≤ length out.old) }
    ensures { out.new
        ≡ survey_at_front (survey_in l (figures_of f.entry)) out.old }
{
    write_yard(out, l, f.yard, f.sums.len());
    write_links(out, l, f);
}

// Writes the survey of the figures, if no link is refused and the output is no shorter.
pub fn write_full(l: Layout, f: SurveyFigures, out: &mut [u8]) -> Result<(), Refusal>
    requires { Writable l }
    ensures reply { result ≡ full_checked l (figures_of f.entry) (length out.old) }
    ensures leaves { out.new ≡ full_after l (figures_of f.entry) out.old }
    ensures met { Met (figures_of f.entry) }
{
    check_links(f)?;
    let size = l.yard.size + f.sums.len() * l.link.size;
    refuse_if(out.len() < size, Rule::ShortOutput, 0)?;
    write_records(out, l, f);
    Ok(())
}
