// The C interface of the points of a whole file, as in include/dgn.h: the file is judged once, and then one pass goes over
// its elements, each of which begins where the words of the one before end. Definitions: specs/Points.

#![tactic(auto)]

ghost use Rattle.std.specs.Prelude.{◌≡◌, ◌+◌, ◌-◌, ◌*◌, ◌≤◌, ◌<◌, ◌^◌, length};
ghost use Rattle.std.proofs.lemmas.List.Edits.{sets};
ghost use Rattle.words.specs.Words.{words};
ghost use Rattle.points_linkages.specs.Coordinates.{longs};
ghost use Rattle.order.specs.Fitting.{part_of, in_numbers, ElementPut, PartPut};
ghost use Rattle.dgn_points.specs.Points.{point_numbers, points_from};
ghost use Rattle.dgn_points.specs.Answers.{PointsGiven};

use order::Part;

// n signed longs, from a place of the numbers on.
fn put_longs(file: &[u8], first: usize, n: usize, numbers: &mut [i64], from: usize)
    requires { (from + n ≤ length numbers.old) × (first + 2 * n < 2 ^ 64) }
    ensures { numbers.new ≡ sets numbers.old from (longs n (words file.now) first) }
{
    for j in 0..n {
        numbers[from + j] = words::signed_long(file, first + 2 * j);
    }
}

// The numbers of the element at a place behind those that are used, where they fit; none of one without points.
fn put_element(
    file: &[u8],
    dim: usize,
    at: usize,
    numbers: &mut [i64],
    used: usize,
) -> Option<usize>
    requires { (dim ≤ 3) × ((at < 2 ^ 40) × (used ≤ length numbers.old)) }
    ensures { ElementPut in_numbers (point_numbers dim (words file.now) at) numbers.old used result numbers.new }
{
    let n = points_linkages::point_count(file, at);
    if n == 0 {
        return Some(used);
    }
    let coordinates = n * dim;
    if numbers.len() - used < 2 + coordinates {
        return None;
    }
    let first = at + points_linkages::before_points(file, at);
    numbers[used] = at as i64;
    numbers[used + 1] = n as i64;
    put_longs(file, first, coordinates, numbers, used + 2);
    Some(used + 2 + coordinates)
}

// The numbers of the elements number k, k + 1, .., up to the first that does not fit.
fn put_points(file: &[u8], dim: usize, elements: usize, k: usize, numbers: &mut [i64]) -> Part
    requires { (dim ≤ 3) × (elements ≤ 1048576) }
    ensures { PartPut in_numbers (part_of (length numbers.old) k (points_from (elements - k) dim (words file.now) k)) numbers.old result numbers.new }
{
    if elements <= k {
        return Part { next: k, used: 0 };
    }
    let mut at = order::start_of(file, k);
    let mut used = 0;
    for i in k..elements {
        let Some(more) = put_element(file, dim, at, numbers, used) else {
            return Part { next: i, used };
        };
        used = more;
        at += headers::size_at(file, at);
    }
    Part {
        next: elements,
        used,
    }
}

#[unsafe(no_mangle)]
pub extern "C" fn dgn_points(
    file: &[u8],
    dim: usize,
    k: usize,
    numbers: &mut [i64],
    out: &mut [usize],
) -> usize
    ensures { PointsGiven dim file.now k numbers.old out.old result numbers.new out.new }
{
    let elements = match order::begin(file, dim, 2, out.len()) {
        Ok(elements) => elements,
        Err(answer) => return answer,
    };
    let Part { next, used } = put_points(file, dim, elements, k, numbers);
    if order::none_fits(used, next, elements) {
        return 15;
    }
    out[0] = next;
    out[1] = used;
    0
}
