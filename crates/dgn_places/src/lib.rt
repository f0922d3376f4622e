// The C interface of a place, as in include/dgn.h: an element's extent and its points. No logic: each contract is the
// library's own equation, put into numbers by specs/ExtentPoint.

#![tactic(auto)]

ghost use Rattle.places.specs.Extents.{extent_answer};
ghost use Rattle.points_linkages.specs.Points.{point_of};
ghost use Rattle.answers.specs.Answers.{Replied};
ghost use Rattle.dgn_places.specs.ExtentPoint.{extent_reply, point_reply};

use points_linkages::Point;

#[unsafe(no_mangle)]
pub extern "C" fn dgn_extent(file: &[u8], dim: usize, place: usize, out: &mut [usize]) -> usize
    ensures { Replied 2 (extent_reply (extent_answer dim file.now place)) out.old result out.new }
{
    if out.len() < 2 {
        return 1;
    }
    match places::extent_answer(file, dim, place) {
        Ok(extent) => {
            out[0] = extent.start;
            out[1] = extent.end;
            0
        }
        Err(refusal) => refusal.number + 256 * refusal.place,
    }
}

#[unsafe(no_mangle)]
pub extern "C" fn dgn_point(
    file: &[u8],
    dim: usize,
    place: usize,
    k: usize,
    out: &mut [i64],
) -> usize
    ensures { Replied 3 (point_reply (point_of dim file.now place k)) out.old result out.new }
{
    if out.len() < 3 {
        return 1;
    }
    match points_linkages::point_at(file, dim, place, k) {
        Ok(Point::Flat { x, y }) => {
            out[0] = x;
            out[1] = y;
            out[2] = 0;
            0
        }
        Ok(Point::Solid { x, y, z }) => {
            out[0] = x;
            out[1] = y;
            out[2] = z;
            0
        }
        Err(refused) => refused.number + 256 * refused.place,
    }
}
