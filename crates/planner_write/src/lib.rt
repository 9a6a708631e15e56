// A survey written from its figures.
#![tactic(auto)]

ghost use Rattle.std.specs.Prelude.{◌≡◌, length};
ghost use Rattle.network.specs.Calls.{status};
ghost use Rattle.network.specs.Writing.{figures_from, write_after, write_checked};
ghost use Rattle.network.specs.WritingPromise.{WritePromised};

use network::{Refusal, Rule, YardFigures};
use survey_writing::figures::check_yard;
use survey_writing::kinds::known_layout;
use survey_writing::padding::{full_costs, full_ends, full_sums};
use survey_writing::survey::SurveyFigures;
use survey_writing::writer::write_full;

// The survey of the figures, with the kind of yard record asked for, into the output, whose bytes past it stay, or the refusal.
// There are as many links as sum costs, with two ends and two ceiling costs each. An end that is not handed in is no station, and such a cost of an
// absent ceiling is 0; a link that lacks the cost of a present ceiling is number 8.
pub fn write_survey(
    kind: u32,
    yard: YardFigures,
    ends: &[u8],
    sums: &[i32],
    costs: &[i16],
    survey: &mut [u8],
) -> Result<(), Refusal>
    ensures reply { result ≡ write_checked kind
        (figures_from yard ends.now sums.now costs.now) (length survey.old) }
    ensures leaves { survey.new ≡ write_after kind
        (figures_from yard ends.now sums.now costs.now) survey.old }
    ensures promised { WritePromised kind
        (figures_from yard ends.now sums.now costs.now) survey.old (status result) survey.new }
{
    // A number, as C hands it in and docs/REFERENCE.md names the kinds, 59 44 and 59 45: a layout is looked up for it.
    let Some(l) = known_layout(kind) else {
        return Err(Refusal::of(Rule::WrongMark));
    };
    let m = sums.len();
    check_yard(yard, m)?;
    if (2 * m <= ends.len()) & (2 * m <= costs.len()) {
        let figures = SurveyFigures {
            yard,
            ends,
            sums,
            costs,
        };
        return write_full(l, figures, survey);
    }
    let all_ends = full_ends(ends);
    let all_sums = full_sums(yard.p, sums, costs.len());
    let all_costs = full_costs(costs);
    let figures = SurveyFigures {
        yard,
        ends: &all_ends,
        sums: &all_sums[..m],
        costs: &all_costs,
    };
    write_full(l, figures, survey)
}
