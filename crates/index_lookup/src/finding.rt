// The cheapest plan that a value of the first ceiling allows, by a list and its index.
ghost use Rattle.std.specs.Prelude.{false, ◌≡◌, ◌*◌, ◌≤◌, length};
ghost use Rattle.network.specs.Capacities.{plans_held};
ghost use Rattle.network.specs.Fetching.{damaged, head_count};
ghost use Rattle.network.specs.Indexing.{looked_up};
ghost use Rattle.index_lookup.specs.Finding.{found_in};

use crate::cheapest::cheapest_plan;
use crate::testing::holds_index;
use encoding::numbers::read_u16;
use index_keys::{SHORT, raised16, read_keys};
use network::capacities::PLANS_HELD;
use network::{Refusal, Rule};
use planlist_records::records::COUNT_AT;

// Looks the cheapest plan up by the keys of all plans: refused if the buffer does not hold their index, or if no plan meets the value.
fn find_in(keys: &[u64], index: &[u8], y: i16) -> Result<u16, Refusal>
    requires { (length keys.now ≤ plans_held) × (length keys.now * 2 ≤ length index.now) }
    ensures { result ≡ found_in keys.now index.now y }
{
    if !holds_index(keys, index) {
        return Err(Refusal::of(Rule::DamagedList));
    }
    let bound = raised16(y.cast_unsigned()) as u64;
    let r = cheapest_plan(keys, bound).ok_or(Refusal::of(Rule::NoSuchPlan))?;
    Ok(r as u16)
}

// Looks the cheapest plan of a list of at most so many plans up.
fn find_held<const HELD: usize>(list: &[u8], index: &[u8], y: i16) -> Result<u16, Refusal>
    requires { (damaged list.now ≡ false) × (head_count list.now ≤ HELD) × (HELD ≤ 65536) }
    ensures { result ≡ looked_up list.now index.now y }
{
    let mut held = [0u64; HELD];
    let keys = &mut held[..read_u16(list, COUNT_AT) as usize];
    read_keys(list, keys)?;
    if index.len() < keys.len() * 2 {
        return Err(Refusal::of(Rule::ShortIndex));
    }
    find_in(keys, index, y)
}

// Looks the cheapest plan of a list up whose y1 is at most y.
pub fn find(list: &[u8], index: &[u8], y: i16) -> Result<u16, Refusal>
    requires { damaged list.now ≡ false }
    ensures { result ≡ looked_up list.now index.now y }
{
    if read_u16(list, COUNT_AT) as usize <= SHORT {
        return find_held::<SHORT>(list, index, y);
    }
    find_held::<PLANS_HELD>(list, index, y)
}
