// The longs of a range as coordinates, read and stored. Definitions: specs/Ranges.

#![tactic(auto)]

ghost use Rattle.std.specs.Prelude.{◌≡◌};
ghost use Rattle.words.specs.Words.{words, long_at, put_long};
ghost use Rattle.ranges.specs.Ranges.{coordinate, stored, is_coordinate};

// The coordinate that a range's long at words i and i + 1 stands for.
pub fn coordinate_at(s: &[u8], i: usize) -> i64
    ensures { result ≡ coordinate (long_at (words s.now) i) }
{
    (words::long(s, i) as i64) - 2147483648
}

// Words i and i + 1 become the long of a range that stands for the coordinate v.
pub fn put_coordinate(s: &mut [u8], i: usize, v: i32)
    ensures { s.new ≡ put_long s.old i (stored v) }
{
    words::put_long(s, i, ((v as i64) + 2147483648) as u32);
}

// Whether a number is a coordinate.
pub fn is_coordinate(v: i64) -> bool
    ensures { result ≡ is_coordinate v }
{
    if v < -2147483648 {
        return false;
    }
    v < 2147483648
}
