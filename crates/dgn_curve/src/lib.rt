// The C interface of the ellipse or the arc at a place, as in include/dgn.h. No logic: the contract is the library's own
// equation, put into numbers and floats by specs/CurveReplies.

#![tactic(auto)]

ghost use Rattle.curve_views.specs.CurveViews.{curve_of};
ghost use Rattle.dgn_curve.specs.CurveReplies.{CurveReplied};

#[unsafe(no_mangle)]
pub extern "C" fn dgn_curve(
    file: &[u8],
    dim: usize,
    place: usize,
    numbers: &mut [i64],
    floats: &mut [f64],
) -> usize
    ensures { CurveReplied (curve_of dim file.now place) numbers.old floats.old result numbers.new floats.new }
{
    if numbers.len() < 7 {
        return 1;
    }
    if floats.len() < 5 {
        return 1;
    }
    match curve_views::curve_at(file, dim, place) {
        Ok(curve) => {
            curve_numbers::put_curve(numbers, 0, floats, 0, Ok(curve));
            0
        }
        Err(refusal) => refusal.number + 256 * refusal.place,
    }
}
