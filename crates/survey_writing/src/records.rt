// The records of a survey, written from figures.
ghost use Rattle.std.specs.Prelude.{◌≡◌, ◌+◌, ◌≤◌, length};
ghost use Rattle.network.specs.Limits.{max_links};
ghost use Rattle.network.specs.Writing.{link_bytes, yard_bytes};
ghost use Rattle.buffers.specs.Overwrite.{overwrite};
ghost use Rattle.survey_roundtrip.specs.Layouts.{Writable, written_link, written_yard};
ghost use Rattle.survey_roundtrip.specs.Written.{field_bytes};
ghost use Rattle.survey_writing.specs.Figures.{link_of};

use crate::survey::LinkFigures;
use buffers::copies::copy_in;
use encoding::writes::{write_i16, write_i32, write_u8};
use network::{Layout, YardFigures};
use survey_layout::fields::{CEILINGS, COSTS, ENDS, RANKS, STATIONS, SUM};

// Writes a yard record without a link count at the front.
fn write_fields(out: &mut [u8], mark: [u8; 2], yard: YardFigures)
    requires { written_yard ≤ length out.old }
    ensures { out.new ≡ overwrite out.old 0 (field_bytes mark yard) }
{
    copy_in(out, 0, &mark);
    write_u8(out, STATIONS, yard.n);
    write_u8(out, CEILINGS, yard.p);
    write_u8(out, RANKS, yard.k1);
    write_u8(out, RANKS + 1, yard.k2);
}

// Writes the yard record of a survey with m links at the front.
pub fn write_yard(out: &mut [u8], l: Layout, yard: YardFigures, m: usize)
    requires { Writable l × (l.yard.size ≤ length out.old) × (m ≤ max_links) }
    ensures { out.new ≡ overwrite out.old 0 (yard_bytes l yard m) }
{
    write_fields(out, l.yard.mark, yard);
    if let Some(count) = l.count {
        write_u8(out, count as usize, m as u8);
    }
}

// Writes the record of a link.
pub fn write_link(out: &mut [u8], at: usize, mark: [u8; 2], link: LinkFigures)
    requires { at + written_link ≤ length out.old }
    ensures { out.new ≡ overwrite out.old at (link_bytes mark (link_of link)) }
{
    copy_in(out, at, &mark);
    write_u8(out, at + ENDS, link.first);
    write_u8(out, at + ENDS + 1, link.second);
    write_i32(out, at + SUM, link.sum);
    write_i16(out, at + COSTS, link.c1);
    write_i16(out, at + COSTS + 2, link.c2);
}
