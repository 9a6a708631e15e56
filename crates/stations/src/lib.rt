// Stations at rest, as the bits of a number: bit j is 1 where station j rests.
#![tactic(auto)]

ghost use Rattle.std.specs.Prelude.{◌≡◌, ◌/◌, ◌^◌, ◌<◌, get_or, length};
ghost use Rattle.network.specs.Capacities.{links_held, stations_held};
ghost use Rattle.network.specs.Yard.{ends_at, joins_working, working, works};
ghost use Rattle.stations.specs.Stations.{Stations};

// Whether station j works.
fn station_works(rest: u32, j: u8) -> bool
    requires { j < stations_held }
    ensures { result ≡ works rest j }
{
    (rest >> j) % 2 == 0
}

// Whether a link between two stations is usable.
pub fn joins_working(rest: u32, a: u8, b: u8) -> bool
    requires { (a < stations_held) × (b < stations_held) }
    ensures { result ≡ joins_working rest (record { a = a; b = b }) }
{
    station_works(rest, a) & station_works(rest, b)
}

// The station at an index of the ends, two for each link in one column, as figures come in from C; 0 past the last, as the definition reads it.
pub fn station_at(ends: &[u8], i: usize) -> u8
    ensures { result ≡ get_or ends.now i 0 }
{
    ends.get(i).copied().unwrap_or(0)
}

// Whether a link is usable, by the ends of all links.
pub fn is_usable(rest: u32, ends: &[u8], link: usize) -> bool
    requires { (link < links_held) × Stations ends.now }
    ensures { result ≡ joins_working rest (ends_at ends.now link) }
{
    if rest == 0 {
        return true;
    }
    let a = station_at(ends, 2 * link);
    let b = station_at(ends, 2 * link + 1);
    joins_working(rest, a, b)
}

// How many of n stations work.
pub fn count_working(n: u8, rest: u32) -> u8
    ensures { result ≡ length (working n rest) }
{
    if rest == 0 {
        return n;
    }
    // A loop: of 0..n, filtered and counted, the proof search did not find the count.
    let mut count: u8 = 0;
    let mut bits = rest;
    for _ in 0..n {
        count += (bits % 2 == 0) as u8;
        bits /= 2;
    }
    count
}

// The bits of the stations at rest at and above n, as a number.
pub fn rest_above(n: u8, rest: u32) -> u32
    ensures { result ≡ rest / 2 ^ n }
{
    rest.checked_shr(n as u32).unwrap_or(0)
}
