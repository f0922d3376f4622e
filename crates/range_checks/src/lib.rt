// Whether all points of an element lie in its range. Definitions: specs/InRange.

#![tactic(auto)]

ghost use Rattle.std.specs.Prelude.{◌≡◌, true, ◌+◌, ◌*◌, ◌/◌, ◌<◌, ◌≤◌, ◌^◌, length};
ghost use Rattle.words.specs.Words.{words, WordRead, long_at, signed};
ghost use Rattle.points_linkages.specs.Points.{point_at};
ghost use Rattle.range_checks.specs.InRange.{is_range_checked, between, point_words, lies_in, each_lies, in_range_in, in_range_of};

use places::spotted_at;
use refusals::Refusal;
use views::Range;

// The types that are asked.
fn is_range_checked(kind: usize) -> bool
    ensures { result ≡ is_range_checked kind }
{
    match kind {
        3 | 6 | 11 => true,
        4 => true,
        _ => false,
    }
}

// Whether a number is from `low` to `high`.
fn between(low: i64, high: i64, z: i64) -> bool
    ensures { result ≡ between low high z }
{
    if z < low {
        return false;
    }
    z <= high
}

// Word i. Where `known` holds it is there, and is not tested for.
fn known_word(s: &[u8], i: usize, known: bool) -> usize
    requires { known ≡ true → i < length s.now / 2 }
    ensures { WordRead s.now i result }
{
    if known {
        let k = 2 * i;
        return (s[k] as usize) + 256 * (s[k + 1] as usize);
    }
    words::word(s, i)
}

// The signed long at words i and i + 1. With its top bit turned over it is in the order of its number, as a range's longs are.
fn known_signed(s: &[u8], i: usize, known: bool) -> i64
    requires { (i + 1 < 2 ^ 64) × (known ≡ true → i + 2 ≤ length s.now / 2) }
    ensures { result ≡ signed (long_at (words s.now) i) }
{
    let n = 65536 * known_word(s, i, known) + known_word(s, i + 1, known);
    let turned = (n + 2147483648) % 4294967296;
    (turned as i64) - 2147483648
}

// The words of a point.
fn point_words(dim: usize) -> usize
    ensures { result ≡ point_words dim }
{
    if dim == 2 { 4 } else { 6 }
}

// Whether the point whose first word is at a place lies in a range. Where `known` holds its words are there.
fn lies_at(file: &[u8], dim: usize, first: usize, known: bool, range: Option<Range>) -> bool
    requires { (first + 5 < 2 ^ 64) × (known ≡ true → first + point_words dim ≤ length file.now / 2) }
    ensures { result ≡ lies_in range (point_at dim (words file.now) first) }
{
    let Some(range) = range else {
        return false;
    };
    if !between(range.low_x, range.high_x, known_signed(file, first, known)) {
        return false;
    }
    if !between(
        range.low_y,
        range.high_y,
        known_signed(file, first + 2, known),
    ) {
        return false;
    }
    if dim == 2 {
        return true;
    }
    between(
        range.low_z,
        range.high_z,
        known_signed(file, first + 4, known),
    )
}

// Whether n points, one behind another from a place on, lie in a range. Whether all their words are there is asked once: the
// compiler then makes a loop without that test.
fn each_lies(file: &[u8], dim: usize, first: usize, n: usize, range: Option<Range>) -> bool
    requires { first + 6 * n + 6 < 2 ^ 64 }
    ensures { result ≡ each_lies n range dim (words file.now) first }
{
    let stride = point_words(dim);
    let known = first + stride * n <= file.len() / 2;
    for k in 0..n {
        if !lies_at(file, dim, first + stride * k, known, range) {
            return false;
        }
    }
    true
}

// Whether all points of the element at a place of a judged file lie in its range; 6 where its type is not asked.
pub fn in_range_in(file: &[u8], dim: usize, at: usize) -> Result<bool, Refusal>
    ensures { result ≡ in_range_in dim (words file.now) at }
{
    if !is_range_checked(headers::type_at(file, at)) {
        return Err(Refusal {
            number: 6,
            place: at,
        });
    }
    let n = points_linkages::point_count(file, at);
    let first = at + points_linkages::before_points(file, at);
    Ok(each_lies(file, dim, first, n, views::range_at(file, at)))
}

// Whether all points of the element at a place of a file lie in its range.
pub fn in_range_at(file: &[u8], dim: usize, place: usize) -> Result<bool, Refusal>
    ensures { result ≡ in_range_of dim file.now place }
{
    spotted_at(file, dim, place)?;
    in_range_in(file, dim, place)
}
