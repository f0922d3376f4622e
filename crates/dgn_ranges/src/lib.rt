// The C interface of the check of ranges, as in include/dgn.h: of one element, and of a whole file. Of a file it is judged once,
// and then one pass goes over its elements, each of which begins where the words of the one before end. Definitions: specs/Check,
// specs/Ranges, specs/Answers.

#![tactic(auto)]

ghost use Rattle.std.specs.Prelude.{◌-◌, ◌≤◌, ◌<◌, ◌^◌, length};
ghost use Rattle.words.specs.Words.{words};
ghost use Rattle.answers.specs.Answers.{Replied};
ghost use Rattle.range_checks.specs.InRange.{in_range_of};
ghost use Rattle.order.specs.Fitting.{part_of, in_numbers, ElementPut, PartPut};
ghost use Rattle.dgn_ranges.specs.Check.{in_range_reply};
ghost use Rattle.dgn_ranges.specs.Ranges.{entry_at, ranges_from};
ghost use Rattle.dgn_ranges.specs.Answers.{RangesGiven};

use order::Part;

#[unsafe(no_mangle)]
pub extern "C" fn dgn_in_range(file: &[u8], dim: usize, place: usize, out: &mut [usize]) -> usize
    ensures { Replied 1 (in_range_reply (in_range_of dim file.now place)) out.old result out.new }
{
    if out.len() < 1 {
        return 1;
    }
    match range_checks::in_range_at(file, dim, place) {
        Ok(inside) => {
            out[0] = usize::from(inside);
            0
        }
        Err(refusal) => refusal.number + 256 * refusal.place,
    }
}

// The place of the element at a place behind those that are used, where it fits; none of one whose answer is not no.
fn put_element(file: &[u8], dim: usize, at: usize, places: &mut [i64], used: usize) -> Option<usize>
    requires { (at < 2 ^ 40) × (used ≤ length places.old) }
    ensures { ElementPut in_numbers (entry_at dim (words file.now) at) places.old used result places.new }
{
    if range_checks::in_range_in(file, dim, at).unwrap_or(true) {
        return Some(used);
    }
    if places.len() <= used {
        return None;
    }
    places[used] = at as i64;
    Some(used + 1)
}

// The places of the elements number k, k + 1, .., up to the first that does not fit. An element's size is read before its points, so
// that the processor can go on to the next one while it compares.
fn put_ranges(file: &[u8], dim: usize, elements: usize, k: usize, places: &mut [i64]) -> Part
    requires { elements ≤ 1048576 }
    ensures { PartPut in_numbers (part_of (length places.old) k (ranges_from (elements - k) dim (words file.now) k)) places.old result places.new }
{
    if elements <= k {
        return Part { next: k, used: 0 };
    }
    let mut at = order::start_of(file, k);
    let mut used = 0;
    for i in k..elements {
        let size = headers::size_at(file, at);
        let Some(more) = put_element(file, dim, at, places, used) else {
            return Part { next: i, used };
        };
        used = more;
        at += size;
    }
    Part {
        next: elements,
        used,
    }
}

#[unsafe(no_mangle)]
pub extern "C" fn dgn_ranges(
    file: &[u8],
    dim: usize,
    k: usize,
    places: &mut [i64],
    out: &mut [usize],
) -> usize
    ensures { RangesGiven dim file.now k places.old out.old result places.new out.new }
{
    let elements = match order::begin(file, dim, 2, out.len()) {
        Ok(elements) => elements,
        Err(answer) => return answer,
    };
    let Part { next, used } = put_ranges(file, dim, elements, k, places);
    if order::none_fits(used, next, elements) {
        return 15;
    }
    out[0] = next;
    out[1] = used;
    0
}
