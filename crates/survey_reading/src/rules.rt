// The rules that a survey's records must keep, in document 01's order: its length, the yard record, the link records.
ghost use Rattle.std.specs.Prelude.{◌≡◌, Err, MatchResult};
ghost use Rattle.network.specs.Layouts.{Roomy};
ghost use Rattle.network.specs.Refusals.{records_checked};
ghost use Rattle.survey_reading.specs.Survey.{RecordsRead};

use network::{Layout, Refusal, Rule};
use survey_layout::layout::bad_length;
use survey_layout::records::{Records, YardRecord};
use survey_rules::link_records::check_links;
use survey_rules::yard_record::check_yard;

// The records of a survey in a layout, or their first refusal.
pub(crate) fn check_records<'a>(s: &'a [u8], l: Layout) -> Result<Records<'a>, Refusal>
    requires { Roomy l }
    ensures { MatchResult result (RecordsRead s.now l) (λ r. records_checked l s.now ≡ Err r) }
{
    if bad_length(l, s.len()) {
        return Err(Refusal::of(Rule::BadLength));
    }
    let m = (s.len() - l.yard.size) / l.link.size;
    let yard = YardRecord {
        bytes: s,
        layout: l,
    };
    check_yard(yard, m)?;
    let records = Records {
        bytes: s,
        layout: l,
        m,
    };
    check_links(records)?;
    Ok(records)
}
