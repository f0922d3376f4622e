// The C interface of the ellipses and arcs of a whole file, as in include/dgn.h: the file is judged once, and then one pass goes
// over its elements, each of which begins where the words of the one before end. Definitions: specs/Curves.

#![tactic(auto)]

ghost use Rattle.std.specs.Prelude.{◌-◌, ◌≤◌, ◌<◌, ◌^◌};
ghost use Rattle.words.specs.Words.{words, word_at};
ghost use Rattle.kinds.specs.FirstWord.{deleted_of};
ghost use Rattle.order.specs.Fitting.{part_of, ElementPut, PartPut};
ghost use Rattle.dgn_curves.specs.Curves.{both, in_both, entry_by, curves_from};
ghost use Rattle.dgn_curves.specs.Answers.{CurvesGiven};

use curve_views::Curve;
use order::Part;
use refusals::Refusal;

// The numbers and floats of an ellipse or an arc at a place behind those of so many others, where they fit.
fn put_curve(
    file: &[u8],
    at: usize,
    curve: Result<Curve, Refusal>,
    numbers: &mut [i64],
    floats: &mut [f64],
    used: usize,
) -> Option<usize>
    requires { (at < 2 ^ 40) × (used ≤ in_both.room (both numbers.old floats.old)) }
    ensures { ElementPut in_both (entry_by curve at (deleted_of (word_at (words file.now) at))) (both numbers.old floats.old) used result (both numbers.new floats.new) }
{
    let Ok(curve) = curve else {
        return Some(used);
    };
    let first = 9 * used;
    let from = 5 * used;
    if numbers.len() - first < 9 {
        return None;
    }
    if floats.len() - from < 5 {
        return None;
    }
    numbers[first] = at as i64;
    numbers[first + 1] = (words::word(file, at) / 32768 % 2) as i64;
    curve_numbers::put_curve(numbers, first + 2, floats, from, Ok(curve));
    Some(used + 1)
}

// The curves among the elements number k, k + 1, .., up to the first that does not fit.
fn put_curves(
    file: &[u8],
    dim: usize,
    elements: usize,
    k: usize,
    numbers: &mut [i64],
    floats: &mut [f64],
) -> Part
    requires { elements ≤ 1048576 }
    ensures { PartPut in_both (part_of (in_both.room (both numbers.old floats.old)) k (curves_from (elements - k) dim (words file.now) k)) (both numbers.old floats.old) result (both numbers.new floats.new) }
{
    if elements <= k {
        return Part { next: k, used: 0 };
    }
    let mut at = order::start_of(file, k);
    let mut used = 0;
    for i in k..elements {
        let curve = curve_views::curve_in(file, dim, at);
        let Some(more) = put_curve(file, at, curve, numbers, floats, used) else {
            return Part { next: i, used };
        };
        used = more;
        at += headers::size_at(file, at);
    }
    Part {
        next: elements,
        used,
    }
}

#[unsafe(no_mangle)]
pub extern "C" fn dgn_curves(
    file: &[u8],
    dim: usize,
    k: usize,
    numbers: &mut [i64],
    floats: &mut [f64],
    out: &mut [usize],
) -> usize
    ensures { CurvesGiven dim file.now k (both numbers.old floats.old) out.old result (both numbers.new floats.new) out.new }
{
    let elements = match order::begin(file, dim, 2, out.len()) {
        Ok(elements) => elements,
        Err(answer) => return answer,
    };
    let Part { next, used } = put_curves(file, dim, elements, k, numbers, floats);
    if order::none_fits(used, next, elements) {
        return 15;
    }
    out[0] = next;
    out[1] = used;
    0
}
