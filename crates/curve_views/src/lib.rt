// What is read of the ellipse or the arc at a place of an accepted file, its axes and origin as floats. Definitions:
// specs/CurveViews.

#![tactic(auto)]

ghost use Rattle.std.specs.Prelude.{◌≡◌, true, cond, ◌+◌, ◌/◌, ◌≤◌, ◌<◌, eqb, length};
ghost use Rattle.words.specs.Words.{words, word_at};
ghost use Rattle.kinds.specs.Kinds.{is_curve};
ghost use Rattle.headers.specs.Header.{type_at};
ghost use Rattle.curve_views.specs.CurveViews.{float_at, origin_at, curve_at, curve_in, curve_of};

use places::spotted_at;
use refusals::Refusal;
use turns::Turn;

#[derive(Clone, Copy)]
pub enum Origin {
    Flat { x: f64, y: f64 },
    Solid { x: f64, y: f64, z: f64 },
}

// An ellipse or an arc: its two axes, how it is turned, its origin; of an arc the angles where it starts and that it sweeps,
// unsigned as they are stored.
#[derive(Clone, Copy)]
pub enum Curve {
    Ellipse {
        primary: f64,
        secondary: f64,
        turn: Turn,
        origin: Origin,
    },
    Arc {
        start: u32,
        sweep: u32,
        primary: f64,
        secondary: f64,
        turn: Turn,
        origin: Origin,
    },
}

// Word i, which is there.
fn word_in(file: &[u8], i: usize) -> u16
    requires { i < length file.now / 2 }
    ensures { result ≡ word_at (words file.now) i }
{
    let k = 2 * i;
    (file[k] as u16) + 256 * (file[k + 1] as u16)
}

// The float of the four words from place i on, which are there: whether they are is asked once for all words of a curve.
fn float_at(file: &[u8], i: usize) -> f64
    requires { i + 4 ≤ length file.now / 2 }
    ensures { result ≡ float_at (words file.now) i }
{
    dfloats::d_float(
        word_in(file, i),
        word_in(file, i + 1),
        word_in(file, i + 2),
        word_in(file, i + 3),
    )
}

// The origin from place i on.
fn origin_at(file: &[u8], dim: usize, i: usize) -> Origin
    requires { i + cond (eqb dim 2) 8 12 ≤ length file.now / 2 }
    ensures { result ≡ origin_at dim (words file.now) i }
{
    let x = float_at(file, i);
    let y = float_at(file, i + 4);
    if dim == 2 {
        return Origin::Flat { x, y };
    }
    let z = float_at(file, i + 8);
    Origin::Solid { x, y, z }
}

// The ellipse or the arc at a place, of type t.
fn curve_from(file: &[u8], dim: usize, at: usize, t: usize) -> Result<Curve, Refusal>
    requires { (t ≡ type_at (words file.now) at) × ((is_curve t ≡ true) × (at < length file.now / 2)) }
    ensures { result ≡ curve_at dim (words file.now) at }
{
    if file.len() / 2 < at + kinds::fixed_part(dim, t, 0) {
        return Err(Refusal {
            number: 3,
            place: at,
        });
    }
    if !curves::floats_ok(file, at, t, dim) {
        return Err(Refusal {
            number: 21,
            place: at,
        });
    }
    let axes = at + curves::axes_word(t);
    let primary = float_at(file, axes);
    let secondary = float_at(file, axes + 4);
    let turn = turns::turn_at(file, dim, axes + 8);
    let origin = origin_at(file, dim, at + curves::origin_word(dim, t));
    if t == 15 {
        return Ok(Curve::Ellipse {
            primary,
            secondary,
            turn,
            origin,
        });
    }
    Ok(Curve::Arc {
        start: words::long(file, at + 18) as u32,
        sweep: words::long(file, at + 20) as u32,
        primary,
        secondary,
        turn,
        origin,
    })
}

// The element at a place of a judged file, where it is an ellipse or an arc; else 6.
pub fn curve_in(file: &[u8], dim: usize, at: usize) -> Result<Curve, Refusal>
    ensures { result ≡ curve_in dim (words file.now) at }
{
    let t = headers::type_at(file, at);
    if !kinds::is_curve(t) {
        return Err(Refusal {
            number: 6,
            place: at,
        });
    }
    curve_from(file, dim, at, t)
}

// The ellipse or the arc at a place of a file.
pub fn curve_at(file: &[u8], dim: usize, place: usize) -> Result<Curve, Refusal>
    ensures { result ≡ curve_of dim file.now place }
{
    spotted_at(file, dim, place)?;
    curve_in(file, dim, place)
}
