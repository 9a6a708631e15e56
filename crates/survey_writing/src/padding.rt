// Columns of figures made full: ends and costs of as many links as a survey may have, with what stands for those that are not handed in.
ghost use Rattle.std.specs.Prelude.{◌≡◌, ◌<◌, get_or};
ghost use Rattle.network.specs.Column.{column};
ghost use Rattle.network.specs.Limits.{max_links};
ghost use Rattle.network.specs.Writing.{lacks_cost, sum_from};
ghost use Rattle.survey_roundtrip.specs.Columns.{full_costs, full_ends, full_sums};

use network::limits::MAX_LINKS;

// What stands for an end that is not handed in: no station of any yard. `write_survey` promises to treat it so, and one rule refuses both.
const NO_STATION: u8 = u8::MAX;

// What stands for the sum cost of a link that lacks a ceiling cost: no sum cost of any link, so that number 8 refuses it,
// as `write_survey` promises.
const NO_SUM: i32 = i32::MAX;

// The first N entries of a column, and what stands for those that are not handed in.
fn made_full<T: Copy, const N: usize>(given: &[T], missing: T) -> [T; N]
    ensures { result ≡ column N missing (λ k. get_or given.now k missing) N }
{
    let mut full = [missing; N];
    let count = given.len().min(N);
    full[..count].copy_from_slice(&given[..count]);
    full
}

// In a column of `given` ceiling costs link i lacks that of one of p ceilings.
fn lacks_cost(p: u8, given: usize, i: usize) -> bool
    requires { i < max_links }
    ensures { result ≡ lacks_cost p given i }
{
    ((0 < p) & (given <= 2 * i)) | ((1 < p) & (given <= 2 * i + 1))
}

// The sum cost of link i beside a column of `given` ceiling costs, in a yard with p ceilings.
fn sum_at(p: u8, sums: &[i32], given: usize, i: usize) -> i32
    requires { i < max_links }
    ensures { result ≡ sum_from p sums.now given i }
{
    if lacks_cost(p, given, i) {
        NO_SUM
    } else {
        sums.get(i).copied().unwrap_or(0)
    }
}

// The ends made full.
pub fn full_ends(ends: &[u8]) -> [u8; 2 * MAX_LINKS]
    ensures { result ≡ full_ends ends.now }
{
    made_full(ends, NO_STATION)
}

// The ceiling costs made full.
pub fn full_costs(costs: &[i16]) -> [i16; 2 * MAX_LINKS]
    ensures { result ≡ full_costs costs.now }
{
    made_full(costs, 0)
}

// The sum costs made full beside a column of `given` ceiling costs, in a yard with p ceilings.
pub fn full_sums(p: u8, sums: &[i32], given: usize) -> [i32; MAX_LINKS]
    ensures { result ≡ full_sums p sums.now given }
{
    let mut full = [0i32; MAX_LINKS];
    for (i, sum) in full.iter_mut().enumerate() {
        *sum = sum_at(p, sums, given, i);
    }
    full
}
