// The stations at rest that a yard record says.
ghost use Rattle.std.specs.Prelude.{◌≡◌};
ghost use Rattle.network.specs.Survey.{rest_in};

use encoding::numbers::read_u24;
use survey_layout::records::YardRecord;

// The stations at rest, as bits; none where the layout has no bytes for them.
pub fn rest_in(yard: YardRecord) -> u32
    ensures { result ≡ rest_in yard.entry.layout yard.entry.bytes.now }
{
    yard.layout
        .rest
        .map_or(0, |at| read_u24(yard.bytes, at as usize))
}
