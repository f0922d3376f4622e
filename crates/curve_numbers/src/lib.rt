// The numbers and floats of an ellipse or an arc in two lent slices. Definitions: specs/Numbers.

#![tactic(auto)]

ghost use Rattle.std.specs.Prelude.{◌≡◌, [], ◌∷◌, ◌+◌, ◌≤◌, ◌<◌, pos, length};
ghost use Rattle.std.proofs.lemmas.List.Edits.{sets};
ghost use Rattle.curve_numbers.specs.Numbers.{long_numbers, origin_floats, put_numbers, put_floats};

use curve_views::{Curve, Origin};
use refusals::Refusal;
use turns::Turn;

// Seven numbers, from a place of a slice on.
fn put_seven(
    numbers: &mut [i64],
    at: usize,
    kind: u32,
    start: u32,
    sweep: u32,
    first: u32,
    second: u32,
    third: u32,
    fourth: u32,
)
    requires { at + 7 ≤ length numbers.old }
    ensures { numbers.new ≡ sets numbers.old at (pos kind ∷ pos start ∷ pos sweep ∷ pos first ∷ pos second ∷ pos third ∷ pos fourth ∷ []) }
{
    numbers[at] = kind as i64;
    numbers[at + 1] = start as i64;
    numbers[at + 2] = sweep as i64;
    numbers[at + 3] = first as i64;
    numbers[at + 4] = second as i64;
    numbers[at + 5] = third as i64;
    numbers[at + 6] = fourth as i64;
}

// The numbers of a type, its angles and its turn.
fn put_longs(numbers: &mut [i64], at: usize, kind: u32, start: u32, sweep: u32, turn: Turn)
    requires { at + 7 ≤ length numbers.old }
    ensures { numbers.new ≡ sets numbers.old at (long_numbers kind start sweep turn) }
{
    match turn {
        Turn::Flat { rotation } => {
            put_seven(numbers, at, kind, start, sweep, rotation, 0, 0, 0);
        }
        Turn::Solid {
            first,
            second,
            third,
            fourth,
        } => {
            put_seven(
                numbers, at, kind, start, sweep, first, second, third, fourth,
            );
        }
    }
}

// Five floats, from a place of a slice on.
fn put_five(floats: &mut [f64], at: usize, primary: f64, secondary: f64, x: f64, y: f64, z: f64)
    requires { at + 5 ≤ length floats.old }
    ensures { floats.new ≡ sets floats.old at (primary ∷ secondary ∷ x ∷ y ∷ z ∷ []) }
{
    floats[at] = primary;
    floats[at + 1] = secondary;
    floats[at + 2] = x;
    floats[at + 3] = y;
    floats[at + 4] = z;
}

// The floats of the axes and the origin.
fn put_floats(floats: &mut [f64], at: usize, primary: f64, secondary: f64, origin: Origin)
    requires { at + 5 ≤ length floats.old }
    ensures { floats.new ≡ sets floats.old at (primary ∷ secondary ∷ origin_floats origin) }
{
    match origin {
        Origin::Flat { x, y } => {
            put_five(floats, at, primary, secondary, x, y, 0.0);
        }
        Origin::Solid { x, y, z } => {
            put_five(floats, at, primary, secondary, x, y, z);
        }
    }
}

// The numbers of an ellipse or an arc from a place of a slice on, and its floats from a place of another; slices with no room
// for both stay, and those of a refusal.
pub fn put_curve(
    numbers: &mut [i64],
    at: usize,
    floats: &mut [f64],
    from: usize,
    curve: Result<Curve, Refusal>,
)
    ensures { (numbers.new ≡ put_numbers numbers.old at floats.old from curve) × (floats.new ≡ put_floats numbers.old at floats.old from curve) }
{
    if numbers.len() < 7 {
        return;
    }
    if numbers.len() - 7 < at {
        return;
    }
    if floats.len() < 5 {
        return;
    }
    if floats.len() - 5 < from {
        return;
    }
    let Ok(curve) = curve else {
        return;
    };
    match curve {
        Curve::Ellipse {
            primary,
            secondary,
            turn,
            origin,
        } => {
            put_longs(numbers, at, 15, 0, 0, turn);
            put_floats(floats, from, primary, secondary, origin);
        }
        Curve::Arc {
            start,
            sweep,
            primary,
            secondary,
            turn,
            origin,
        } => {
            put_longs(numbers, at, 16, start, sweep, turn);
            put_floats(floats, from, primary, secondary, origin);
        }
    }
}
