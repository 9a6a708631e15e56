// The head of a plan list.
ghost use Rattle.std.specs.Prelude.{◌≡◌, ◌≤◌, length};
ghost use Rattle.network.specs.PlanList.{head_bytes, head_size};
ghost use Rattle.buffers.specs.Overwrite.{overwrite};

use crate::records::{CEILINGS_AT, COUNT_AT, HEAD_MARK, SOLVED_AT, TREE_SIZE_AT};
use buffers::copies::copy_in;
use encoding::writes::{write_u8, write_u16, write_u32};

// Writes a list head at the front.
pub fn write_head(out: &mut [u8], count: u16, solved: u32, t: u8, p: u8)
    requires { head_size ≤ length out.old }
    ensures { out.new ≡ overwrite out.old 0 (head_bytes count solved t p) }
{
    copy_in(out, 0, &HEAD_MARK);
    write_u16(out, COUNT_AT, count);
    write_u32(out, SOLVED_AT, solved);
    write_u8(out, TREE_SIZE_AT, t);
    write_u8(out, CEILINGS_AT, p);
}
