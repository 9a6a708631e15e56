// The rule of the link count in the yard record, number 15.
ghost use Rattle.std.specs.Prelude.{◌≡◌};
ghost use Rattle.network.specs.Refusals.{bad_count};

use survey_layout::records::YardRecord;

// Whether the link count that is written, where the layout has one, is not m.
pub fn bad_count(yard: YardRecord, m: usize) -> bool
    ensures { result ≡ bad_count yard.entry.bytes.now yard.entry.layout m }
{
    yard.layout
        .count
        .is_some_and(|at| yard.bytes[at as usize] as usize != m)
}
