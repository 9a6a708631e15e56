// The layouts of surveys, the one that a survey has, and the rule of lengths.
ghost use Rattle.std.specs.Prelude.{◌≡◌, ◌≤◌, ◌<◌, length};
ghost use Rattle.std.specs.List.{find};
ghost use Rattle.network.specs.Survey.{layout_of, opens};
ghost use Rattle.network.specs.Refusals.{bad_length};
ghost use Rattle.network.specs.Layouts.{Roomy};

use encoding::numbers::mark_at;
use network::records::{LINK_FIELDS, NARROW_SLOTS, REST_SIZE, WIDE_SLOTS, YARD_FIELDS};
use network::{Form, Layout};

// The link record with room for two ceiling costs, and the one for three.
const NARROW_LINK: Form = Form {
    mark: *b"LK",
    size: LINK_FIELDS + 2 * NARROW_SLOTS,
};

const WIDE_LINK: Form = Form {
    mark: *b"LM",
    size: LINK_FIELDS + 2 * WIDE_SLOTS,
};

// Surveys with the yard record of document 01.
pub const PLAIN: Layout = Layout {
    yard: Form {
        mark: *b"YD",
        size: YARD_FIELDS + NARROW_SLOTS,
    },
    fewest: 0,
    slots: NARROW_SLOTS as u8,
    count: None,
    rest: None,
    link: NARROW_LINK,
};

// Surveys with the yard record that has the link count behind the other fields.
pub const WITH_COUNT: Layout = Layout {
    yard: Form {
        mark: *b"YE",
        size: YARD_FIELDS + NARROW_SLOTS + 1,
    },
    fewest: 0,
    slots: NARROW_SLOTS as u8,
    count: Some((YARD_FIELDS + NARROW_SLOTS) as u8),
    rest: None,
    link: NARROW_LINK,
};

// Surveys with the yard record that says which stations rest, behind the link count.
const WITH_REST: Layout = Layout {
    yard: Form {
        mark: *b"YF",
        size: YARD_FIELDS + NARROW_SLOTS + 1 + REST_SIZE,
    },
    fewest: 0,
    slots: NARROW_SLOTS as u8,
    count: Some((YARD_FIELDS + NARROW_SLOTS) as u8),
    rest: Some((YARD_FIELDS + NARROW_SLOTS + 1) as u8),
    link: NARROW_LINK,
};

// Surveys of just three ceilings, with the same fields behind their ranks.
const TRIPLE: Layout = Layout {
    yard: Form {
        mark: *b"YG",
        size: YARD_FIELDS + WIDE_SLOTS + 1 + REST_SIZE,
    },
    fewest: WIDE_SLOTS as u8,
    slots: WIDE_SLOTS as u8,
    count: Some((YARD_FIELDS + WIDE_SLOTS) as u8),
    rest: Some((YARD_FIELDS + WIDE_SLOTS + 1) as u8),
    link: WIDE_LINK,
};

// The layouts that are known, a row for each mark of a yard record.
const LAYOUTS: [Layout; 4] = [PLAIN, WITH_COUNT, WITH_REST, TRIPLE];

// The first of some layouts whose mark opens a survey.
fn find_opening(s: &[u8], layouts: &[Layout]) -> Option<Layout>
    requires { 2 ≤ length s.now }
    ensures { result ≡ find (opens s.now) layouts.now }
{
    layouts.iter().find(|l| mark_at(s, 0, l.yard.mark)).copied()
}

// The layout of a survey; where no known mark opens it, the plain one.
pub fn layout_of(s: &[u8]) -> Layout
    ensures { (result ≡ layout_of s.now) × Roomy result }
{
    if s.len() < 2 {
        return PLAIN;
    }
    find_opening(s, &LAYOUTS).unwrap_or(PLAIN)
}

// Whether a survey's length is no yard record with whole link records after it. A flag, as document 01 states the rule: the count of links is one line
// where it is needed.
pub fn bad_length(l: Layout, len: usize) -> bool
    requires { 0 < l.link.size }
    ensures { result ≡ bad_length l len }
{
    len < l.yard.size || (len - l.yard.size) % l.link.size != 0
}
