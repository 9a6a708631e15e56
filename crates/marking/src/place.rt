// Places in a falling list of values.
ghost use Rattle.std.specs.Prelude.{◌≡◌};
ghost use Rattle.marking.specs.Place.{place_in};

// The place of the first value that is at most x, or the number of values.
// From the front: partition_point says where only of values that fall, and no caller's contract says that they do.
pub fn place_of(values: &[i16], x: i16) -> usize
    ensures { result ≡ place_in x values.now }
{
    values
        .iter()
        .position(|value| *value <= x)
        .unwrap_or(values.len())
}
