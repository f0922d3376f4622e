// The points of an element by number. Definitions: specs/Points.
ghost use Rattle.std.specs.Prelude.{◌≡◌, ◌+◌, ◌<◌, ◌^◌};
ghost use Rattle.words.specs.Words.{words};
ghost use Rattle.points_linkages.specs.Points.{point_count, before_points, point_at, point_of};

use super::Point;
use places::spotted_at;
use refusals::Refusal;

// How many points the element at a place has.
pub fn point_count(file: &[u8], at: usize) -> usize
    ensures { result ≡ point_count (words file.now) at }
{
    let t = headers::type_at(file, at);
    if t == 3 {
        return 2;
    }
    if file.len() <= at {
        return 0;
    }
    if kinds::is_pointed(t) {
        return words::word(file, at + 18);
    }
    0
}

// The words before the points of the element at a place.
pub fn before_points(file: &[u8], at: usize) -> usize
    ensures { result ≡ before_points (words file.now) at }
{
    if headers::type_at(file, at) == 3 {
        return 18;
    }
    19
}

// The point whose first word is at a place.
fn point_from(file: &[u8], dim: usize, first: usize) -> Result<Point, Refusal>
    requires { first + 4 < 2 ^ 64 }
    ensures { result ≡ point_at dim (words file.now) first }
{
    let x = words::signed_long(file, first);
    let y = words::signed_long(file, first + 2);
    if dim == 2 {
        return Ok(Point::Flat { x, y });
    }
    let z = words::signed_long(file, first + 4);
    Ok(Point::Solid { x, y, z })
}

// Point k, from 0, of the element at a place.
pub fn point_at(file: &[u8], dim: usize, place: usize, k: usize) -> Result<Point, Refusal>
    ensures { result ≡ point_of dim file.now place k }
{
    spotted_at(file, dim, place)?;
    if k < point_count(file, place) {
        let first = place + before_points(file, place) + 2 * dim * k;
        return point_from(file, dim, first);
    }
    Err(Refusal {
        number: 13,
        place: 0,
    })
}
