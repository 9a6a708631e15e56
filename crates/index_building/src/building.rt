// The index of a list, written into a lent buffer.
ghost use Rattle.std.specs.Prelude.{false, ◌≡◌, ◌/◌, ◌≤◌, length};
ghost use Rattle.network.specs.Fetching.{damaged, head_count};
ghost use Rattle.network.specs.Indexing.{index_after, index_checked};

use crate::entries::write_entries;
use encoding::numbers::read_u16;
use index_keys::{SHORT, read_keys};
use network::capacities::PLANS_HELD;
use network::{Refusal, Rule};
use planlist_records::records::COUNT_AT;

// Half of the most plans.
const MOST_HALF: usize = PLANS_HELD / 2;

// Half of the plans of a short list.
const SHORT_HALF: usize = SHORT / 2;

// Builds the index of a list of at most so many plans, by way of spare columns for half of them.
fn build_held<const HELD: usize, const HALF: usize>(
    list: &[u8],
    index: &mut [u8],
) -> Result<(), Refusal>
    requires { (damaged list.now ≡ false) × (head_count list.now ≤ HELD) × (head_count list.now / 2 ≤ HALF) × (HELD ≤ 65536) × (HALF ≤ 65536) }
    ensures reply { result ≡ index_checked list.now (length index.old) }
    ensures leaves { index.new ≡ index_after list.now index.old }
{
    let mut held = [0u64; HELD];
    let keys = &mut held[..read_u16(list, COUNT_AT) as usize];
    read_keys(list, keys)?;
    if index.len() < keys.len() * 2 {
        return Err(Refusal::of(Rule::ShortIndex));
    }
    write_entries::<HELD, HALF>(index, keys);
    Ok(())
}

// Builds the index of a list in a buffer.
pub fn build(list: &[u8], index: &mut [u8]) -> Result<(), Refusal>
    requires { damaged list.now ≡ false }
    ensures reply { result ≡ index_checked list.now (length index.old) }
    ensures leaves { index.new ≡ index_after list.now index.old }
{
    if read_u16(list, COUNT_AT) as usize <= SHORT {
        return build_held::<SHORT, SHORT_HALF>(list, index);
    }
    build_held::<PLANS_HELD, MOST_HALF>(list, index)
}
