// The network that a survey's records say.
ghost use Rattle.std.specs.Prelude.{◌≡◌, ◌+◌, ◌≤◌, drop, length, take};
ghost use Rattle.network.specs.Capacities.{ceilings_held};
ghost use Rattle.network.specs.Survey.{network_with, ranks_at};
ghost use Rattle.survey_decoding.specs.Decoded.{Decodable, Decoded};

use crate::columns::{decode_costs, decode_ends, decode_sums};
use network::Shape;
use network::capacities::CEILINGS_HELD;
use stations::count_working;
use survey_layout::fields::{CEILINGS, RANKS, STATIONS};
use survey_layout::records::Records;
use survey_rules::resting::rest_in;

// The ranks of p ceilings, and 0 for those that are absent.
fn ranks_in(s: &[u8], p: usize) -> [u8; CEILINGS_HELD]
    requires { (p ≤ ceilings_held) × (ranks_at + p ≤ length s.now) }
    ensures { (length result ≡ ceilings_held) × (take p result ≡ take p (drop ranks_at s.now)) }
{
    let mut k = [0u8; CEILINGS_HELD];
    k[..p].copy_from_slice(&s[RANKS..RANKS + p]);
    k
}

// The shape of a survey, whose columns go to the fronts of those that are lent.
pub fn decode(records: Records, ends: &mut [u8], sums: &mut [u32], costs: &mut [i16]) -> Shape
    requires { Decodable records.bytes.now records.layout records.m ends.old sums.old costs.old }
    ensures { Decoded (network_with records.entry.layout records.entry.bytes.now records.entry.m) result ends.new sums.new costs.new }
{
    let s = records.bytes;
    let n = s[STATIONS];
    let p = s[CEILINGS];
    let rest = rest_in(records.yard());
    decode_ends(records, ends);
    decode_sums(records, sums);
    decode_costs(records, p as usize, costs);
    Shape {
        n,
        p,
        k: ranks_in(s, p as usize),
        rest,
        m: records.m,
        t: count_working(n, rest) - 1,
    }
}
