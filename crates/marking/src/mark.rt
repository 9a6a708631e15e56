// Marks of positions: one for each position, by its number.
ghost use Rattle.std.specs.Prelude.{◌≡◌, [], ◌∷◌, ◌+◌, ◌*◌, ◌≤◌, length};
ghost use Rattle.marking.specs.Paint.{paint, side};
ghost use Rattle.marking.specs.Sides.{Inside};

// One side of a box: so many places, and how far apart the numbers are of positions whose places there are neighbours.
#[derive(Clone, Copy)]
pub struct Side {
    pub stride: usize,
    pub count: usize,
}

// Marks n positions from one on.
fn mark_row(marks: &mut [bool], start: usize, n: usize)
    requires { start + n ≤ length marks.old }
    ensures { marks.new ≡ paint (side 1 n ∷ []) start marks.old }
{
    marks[start..start + n].fill(true);
}

// Marks n positions in each row of a side.
fn mark_rows(marks: &mut [bool], start: usize, rows: Side, n: usize)
    requires { (rows.stride ≤ length marks.old) × (start + rows.stride * rows.count + n ≤ length marks.old + rows.stride) }
    ensures { marks.new ≡ paint (rows ∷ side 1 n ∷ []) start marks.old }
{
    for row in 0..rows.count {
        mark_row(marks, start + row * rows.stride, n);
    }
}

// Marks the box with the given sides whose first position is `start`. The last side has the stride 1.
// One side and two have arms of their own: a row is filled at once, and each row of two sides without a call of this function.
pub fn mark_box(marks: &mut [bool], start: usize, sides: &[Side])
    requires { Inside sides.now start (length marks.old) }
    ensures { marks.new ≡ paint sides.now start marks.old }
{
    match sides {
        [] => marks[start] = true,
        [row] => mark_row(marks, start, row.count),
        [rows, row] => mark_rows(marks, start, *rows, row.count),
        [first, rest @ ..] => {
            for part in 0..first.count {
                mark_box(marks, start + part * first.stride, rest);
            }
        }
    }
}
