// The calls of `planner` for programs in C and Rust: replies are structs of plain numbers.
#![tactic(auto)]

ghost use Rattle.std.specs.Prelude.{[], ◌∷◌, ◌≡◌, length};
ghost use Rattle.network.specs.AnswerPromise.{BestPromised, JudgePromised};
ghost use Rattle.network.specs.Calls.{asked, judged, list_after, list_status, tree_after};
ghost use Rattle.network.specs.Cut.{CutNoticed};
ghost use Rattle.network.specs.Indexing.{index_after, index_status, lookup_reply};
ghost use Rattle.network.specs.Promise.{Promised};
ghost use Rattle.network.specs.IndexPromise.{IndexPromised};
ghost use Rattle.network.specs.Writing.{figures_from, write_after, write_status};
ghost use Rattle.network.specs.WritingPromise.{WritePromised};
ghost use Rattle.network.specs.SmallPromise.{SmallPromised};
ghost use Rattle.network.specs.SmallSurveys.{small_after, small_status};
ghost use Rattle.capi_replies.specs.Flat.{FoundPromised, flat_found};
ghost use Rattle.capi_replies.specs.Parts.{PartOf, part_of};
ghost use Rattle.capi_replies.specs.Replies.{flat_reply, flat_values};
ghost use Rattle.capi.specs.Version.{version};

use capi_replies::found::{FoundPlan, found_plan};
use capi_replies::part::{Part, part_of};
use capi_replies::reply::Reply;
use network::{Status, YardFigures};

// The version of these calls: it changes whenever a struct, a call or the meaning of a reply does.
pub const VERSION: u32 = 9;

// The version of the calls that this archive has.
#[unsafe(no_mangle)]
pub extern "C" fn ranqustei_version() -> u32
    ensures { result ≡ version }
{
    VERSION
}

// The judge of a drawn tree.
#[unsafe(no_mangle)]
pub extern "C" fn ranqustei_judge(survey: &[u8], drawn: &[u8]) -> Reply
    ensures reply { result ≡ flat_reply (judged survey.now drawn.now) }
    ensures promised { JudgePromised survey.now drawn.now result.number (flat_values result) }
    ensures noticed { CutNoticed survey.now result.number result.place }
{
    Reply::from(planner::judge(survey, drawn))
}

// The best tree under the numbers b1, b2 and b3.
#[unsafe(no_mangle)]
pub extern "C" fn ranqustei_best(survey: &[u8], b1: i16, b2: i16, b3: i16, tree: &mut [u8]) -> Reply
    ensures reply { result ≡ flat_reply (asked survey.now (b1 ∷ b2 ∷ b3 ∷ []) (length tree.old)) }
    ensures leaves { tree.new ≡ tree_after survey.now (b1 ∷ b2 ∷ b3 ∷ []) tree.old }
    ensures promised { BestPromised survey.now (b1 ∷ b2 ∷ b3 ∷ []) tree.old result.number (flat_values result) tree.new }
    ensures noticed { CutNoticed survey.now result.number result.place }
{
    Reply::from(planner::best(survey, [b1, b2, b3], tree))
}

// The list of plans that no other plan beats.
#[unsafe(no_mangle)]
pub extern "C" fn ranqustei_list(survey: &[u8], allowance: u32, buffer: &mut [u8]) -> Status
    ensures reply { result ≡ list_status survey.now allowance (length buffer.old) }
    ensures leaves { buffer.new ≡ list_after survey.now allowance buffer.old }
    ensures promised { Promised survey.now allowance buffer.old result buffer.new }
    ensures noticed { CutNoticed survey.now result.number result.place }
{
    Status::from(planner::list(survey, allowance, buffer))
}

// Plan r of a list: the number, and where its link bytes are.
#[unsafe(no_mangle)]
pub extern "C" fn ranqustei_fetch(list: &[u8], r: u32) -> Part
    ensures reply { result ≡ part_of list.now r }
    ensures links { PartOf list.now r result }
{
    part_of(list, r)
}

// The index of a plan list by first ceiling.
#[unsafe(no_mangle)]
pub extern "C" fn ranqustei_index(list: &[u8], buffer: &mut [u8]) -> Status
    ensures reply { result ≡ index_status list.now (length buffer.old) }
    ensures leaves { buffer.new ≡ index_after list.now buffer.old }
    ensures promised { IndexPromised list.now buffer.old result buffer.new }
{
    Status::from(planner::index(list, buffer))
}

// The cheapest plan of a list whose y1 is at most `value`, by its index.
#[unsafe(no_mangle)]
pub extern "C" fn ranqustei_index_lookup(list: &[u8], index: &[u8], value: i16) -> FoundPlan
    ensures reply { result ≡ flat_found (lookup_reply list.now index.now value) }
    ensures promised { FoundPromised list.now index.now value result }
{
    found_plan(list, index, value)
}

// The survey of figures, with the kind of yard record asked for.
#[unsafe(no_mangle)]
pub extern "C" fn ranqustei_write_survey(
    kind: u32,
    yard: YardFigures,
    ends: &[u8],
    sums: &[i32],
    costs: &[i16],
    survey: &mut [u8],
) -> Status
    ensures reply { result ≡ write_status kind
        (figures_from yard ends.now sums.now costs.now) (length survey.old) }
    ensures leaves { survey.new ≡ write_after kind
        (figures_from yard ends.now sums.now costs.now) survey.old }
    ensures promised { WritePromised kind
        (figures_from yard ends.now sums.now costs.now) survey.old result survey.new }
{
    Status::from(planner::write_survey(kind, yard, ends, sums, costs, survey))
}

// Small survey q of the 1,728, from 0 in their order.
#[unsafe(no_mangle)]
pub extern "C" fn ranqustei_small_survey(q: u32, survey: &mut [u8]) -> Status
    ensures reply { result ≡ small_status q (length survey.old) }
    ensures leaves { survey.new ≡ small_after q survey.old }
    ensures promised { SmallPromised q survey.old result survey.new }
{
    Status::from(planner::small_survey(q, survey))
}
