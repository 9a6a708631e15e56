// The index of a plan list by first ceiling, and the cheapest plan that a value of that ceiling allows.
#![tactic(auto)]

ghost use Rattle.std.specs.Prelude.{◌≡◌, length};
ghost use Rattle.network.specs.Calls.{status};
ghost use Rattle.network.specs.Indexing.{index_after, index_checked, lookup_reply, says_found};
ghost use Rattle.network.specs.IndexPromise.{IndexPromised, LookupPromised};

use index_building::building::build;
use index_lookup::finding::find;
use network::{Refusal, Rule};
use planlist_fetching::finding::is_damaged;

// The index of a list into the index buffer, whose bytes past it stay, or the refusal.
pub fn index(list: &[u8], buffer: &mut [u8]) -> Result<(), Refusal>
    ensures reply { result ≡ index_checked list.now (length buffer.old) }
    ensures leaves { buffer.new ≡ index_after list.now buffer.old }
    ensures promised { IndexPromised list.now buffer.old (status result) buffer.new }
{
    if is_damaged(list) {
        Err(Refusal::of(Rule::DamagedList))
    } else {
        build(list, buffer)
    }
}

// The cheapest plan of a list whose y1 is at most y, by its index: the plan's number, or the refusal.
pub fn index_lookup(list: &[u8], index: &[u8], y: i16) -> Result<u16, Refusal>
    ensures reply { says_found result ≡ lookup_reply list.now index.now y }
    ensures promised { LookupPromised list.now index.now y (says_found result) }
{
    if is_damaged(list) {
        return Err(Refusal::of(Rule::DamagedList));
    }
    find(list, index, y)
}
