// VAX D-floats of four words, read as the nearest 64-bit float. Definitions: specs/FirstWord (sign and exponent),
// specs/Fields (fraction and rounding), specs/Reading (what is read), specs/Nearest (what nearest means).

#![tactic(auto)]

ghost use Rattle.std.specs.Prelude.{◌≡◌, ◌<◌, ◌^◌};
ghost use Rattle.dfloats.specs.FirstWord.{is_reserved};
ghost use Rattle.dfloats.specs.Fields.{digits, eighth};
ghost use Rattle.dfloats.specs.Reading.{d_float};

// Whether a float with this first word is refused: its exponent is 0 and its sign set.
pub fn is_reserved(a: usize) -> bool
    ensures { result ≡ is_reserved a }
{
    a / 128 % 512 == 256
}

// m: the leading digit and the 55 bits of the fraction.
fn digits_of(a: u16, b: u16, c: u16, d: u16) -> u64
    ensures { result ≡ digits a b c d }
{
    let high = (a % 128) as u64;
    36028797018963968
        + high * 281474976710656
        + (b as u64) * 4294967296
        + (c as u64) * 65536
        + (d as u64)
}

// The whole number nearest to m / 8, and the even one of two: 3 and the last digit that is kept are added before what lies
// below it is cut.
fn eighth_of(m: u64) -> u64
    requires { m < 2 ^ 56 }
    ensures { result ≡ eighth m }
{
    (m + 3 + m / 8 % 2) / 8
}

// The float of four words, from high to low; +0 where the exponent is 0. A float's bits are its sign, its exponent's field
// and its digits; the leading digit adds one to the field, and so does the carry where the rounding reaches the next power of
// two.
pub fn d_float(a: u16, b: u16, c: u16, d: u16) -> f64
    ensures { result ≡ d_float a b c d }
{
    let exponent = (a / 128 % 256) as u64;
    if exponent == 0 {
        return 0.0;
    }
    let q = eighth_of(digits_of(a, b, c, d));
    let sign = (a / 32768) as u64;
    f64::from_bits(sign * 9223372036854775808 + (exponent + 893) * 4503599627370496 + q)
}
