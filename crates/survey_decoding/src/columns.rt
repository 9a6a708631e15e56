// The figures that a survey's link records say, as columns: ends, sum costs, which are raised, and ceiling costs.
ghost use Rattle.std.specs.Prelude.{false, ℕ, ◌≡◌, ◌+◌, ◌*◌, ◌≤◌, ◌<◌, get_or, length, take};
ghost use Rattle.network.specs.Survey.{ceiling_in, costs_in, ends_in, sums_in};
ghost use Rattle.network.specs.Survey as spec;
ghost use Rattle.network.specs.Refusals.{bad_sum};
ghost use Rattle.network.specs.Accepted.{Priced};
ghost use Rattle.survey_decoding.specs.Columns.{HasCosts};

use network::capacities::RAISE;
use survey_layout::records::Records;

// Fills a column with a figure of each link.
fn fill_column<T: Copy, F: Fn(usize) -> T>(column: &mut [T], figure: F)
    requires { (i : ℕ) → i < length column.old → F.pre figure i }
    ensures { (i : ℕ) (d : T) → i < length column.new → F.post figure i (get_or column.new i d) }
{
    for (i, x) in column.iter_mut().enumerate() {
        *x = figure(i);
    }
}

// The ends of the links, two for each, at the front of a column.
pub fn decode_ends(records: Records, ends: &mut [u8])
    requires { 2 * records.m ≤ length ends.old }
    ensures { take (2 * records.entry.m) ends.new ≡ ends_in records.entry.layout records.entry.bytes.now records.entry.m }
{
    // By the link's number: a proof knows nothing of what a loop over `chunks_exact_mut` writes.
    for i in 0..records.m {
        let (first, second) = records.link(i).ends();
        ends[2 * i] = first;
        ends[2 * i + 1] = second;
    }
}

// A sum cost in its range, raised so that it is not below 0.
fn raised(sum: i32) -> u32
    requires { bad_sum sum ≡ false }
    ensures { result ≡ spec.raised sum }
{
    (sum + RAISE) as u32
}

// The raised sum costs of the links, at the front of a column.
pub fn decode_sums(records: Records, sums: &mut [u32])
    requires { Priced records.bytes.now records.layout records.m × (records.m ≤ length sums.old) }
    ensures { take records.entry.m sums.new ≡ sums_in records.entry.layout records.entry.bytes.now records.entry.m }
{
    fill_column(&mut sums[..records.m], |i| raised(records.link(i).sum()));
}

// The costs of the links by a ceiling.
fn decode_ceiling(records: Records, ceiling: usize, column: &mut [i16])
    requires { HasCosts records.layout (ceiling + 1) × (length column.old ≡ records.m) }
    ensures { column.new ≡ ceiling_in records.entry.layout records.entry.bytes.now records.entry.m ceiling }
{
    fill_column(column, |i| records.link(i).cost(ceiling));
}

// The costs of the links by the first p ceilings, one ceiling after the other, at the front of a column.
pub fn decode_costs(records: Records, p: usize, costs: &mut [i16])
    requires { HasCosts records.layout p × (p * records.m ≤ length costs.old) }
    ensures { take (p * records.entry.m) costs.new ≡ costs_in records.entry.layout records.entry.bytes.now records.entry.m p }
{
    // By its place: a proof knows nothing of what a loop over `chunks_exact_mut` writes.
    let mut from = 0;
    for i in 0..p {
        let to = from + records.m;
        decode_ceiling(records, i, &mut costs[from..to]);
        from = to;
    }
}
