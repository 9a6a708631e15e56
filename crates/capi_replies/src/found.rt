// The reply of a lookup in an index for C: plain numbers in a struct.
ghost use Rattle.std.specs.Prelude.{◌≡◌};
ghost use Rattle.network.specs.Indexing.{lookup_reply, says_found};
ghost use Rattle.capi_replies.specs.Flat.{FoundPromised, flat_found};

use network::Refusal;
use planner_index::index_lookup;

// A plan's number with number 0 and place 0, or a refusal with plan 0.
#[repr(C)]
#[derive(Drop)]
pub struct FoundPlan {
    pub number: u8,
    pub place: u8,
    pub plan: u16,
}

impl From<Result<u16, Refusal>> for FoundPlan {
    ghost from_gives = { λ found reply. reply ≡ flat_found (says_found found) };

    fn from(found: Result<u16, Refusal>) -> FoundPlan {
        match found {
            Ok(plan) => FoundPlan {
                number: 0,
                place: 0,
                plan,
            },
            Err(refusal) => FoundPlan {
                number: refusal.rule.number(),
                place: refusal.place,
                plan: 0,
            },
        }
    }
}

// The cheapest plan of a list whose y1 is at most `value`, by its index.
pub fn found_plan(list: &[u8], index: &[u8], value: i16) -> FoundPlan
    ensures reply { result ≡ flat_found (lookup_reply list.now index.now value) }
    ensures promised { FoundPromised list.now index.now value result }
{
    FoundPlan::from(index_lookup(list, index, value))
}
