// The kinds of yard records that a survey is written with, and their layouts.
ghost use Rattle.std.specs.Prelude.{false, true, ◌≡◌, MatchOption};
ghost use Rattle.std.specs.List.{find};
ghost use Rattle.network.specs.Writing.{is_of_kind, kind_of, layout_for, unknown_kind};
ghost use Rattle.survey_roundtrip.specs.Layouts.{Writable};

use network::Layout;
use survey_layout::layout::{PLAIN, WITH_COUNT};

// The layouts that the writer knows.
const WRITABLE: [Layout; 2] = [PLAIN, WITH_COUNT];

// The number that names a layout's kind of yard record.
pub fn kind_of(l: Layout) -> u32
    ensures { result ≡ kind_of l }
{
    u16::from_be_bytes(l.yard.mark) as u32
}

// The first of some layouts that is of a kind.
fn find_kind(kind: u32, layouts: &[Layout]) -> Option<Layout>
    ensures { result ≡ find (is_of_kind kind) layouts.now }
{
    layouts.iter().find(|l| kind_of(**l) == kind).copied()
}

// The layout of a survey of a kind; where the kind is not known, the old one.
pub fn layout_for(kind: u32) -> Layout
    ensures { (result ≡ layout_for kind) × Writable result }
{
    find_kind(kind, &WRITABLE).unwrap_or(PLAIN)
}

// The same, if the writer knows the kind.
pub fn known_layout(kind: u32) -> Option<Layout>
    ensures { MatchOption result (unknown_kind kind ≡ true)
        (λ l. (l ≡ layout_for kind) × Writable l × (unknown_kind kind ≡ false)) }
{
    find_kind(kind, &WRITABLE)
}
