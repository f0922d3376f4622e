// The types of elements: which are headers, which have a count, points, floats or attributes, how long their fixed parts are,
// and where they may stand. The definitions are in specs/: FirstWord (where the type stands), Kinds (the types).

#![tactic(auto)]

ghost use Rattle.std.specs.Prelude.{◌≡◌, true, cond};
ghost use Rattle.kinds.specs.FirstWord.{type_of};
ghost use Rattle.kinds.specs.Kinds.{is_header, is_counted, is_pointed, is_curve, is_linked, is_unread, fixed_part, may_stand};

// The type in word 0.
pub fn type_of(w: usize) -> usize
    ensures { result ≡ type_of w }
{
    w / 256 % 128
}

// The headers. Here and below numbers that follow one another stand in different arms: in one arm they would be
// compared as a range.
pub fn is_header(t: usize) -> bool
    ensures { result ≡ is_header t }
{
    match t {
        1 | 7 | 12 | 14 | 18 => true,
        2 | 19 => true,
        _ => false,
    }
}

// The headers with a count.
pub fn is_counted(t: usize) -> bool
    ensures { result ≡ is_counted t }
{
    match t {
        7 | 12 | 14 | 18 => true,
        19 => true,
        _ => false,
    }
}

// The types with N points.
pub fn is_pointed(t: usize) -> bool
    ensures { result ≡ is_pointed t }
{
    match t {
        4 | 6 | 11 | 21 => true,
        _ => false,
    }
}

// The ellipses and arcs.
pub fn is_curve(t: usize) -> bool
    ensures { result ≡ is_curve t }
{
    match t {
        15 => true,
        16 => true,
        _ => false,
    }
}

// The types that may have attributes.
pub fn is_linked(t: usize) -> bool
    ensures { result ≡ is_linked t }
{
    match t {
        2 | 4 | 6 | 11 | 14 | 16 | 18 | 21 => true,
        3 | 7 | 12 | 15 | 17 | 19 => true,
        _ => false,
    }
}

// The types that are refused wherever they stand.
pub fn is_unread(t: usize) -> bool
    ensures { result ≡ is_unread t }
{
    match t {
        24 | 27 | 87 => true,
        _ => false,
    }
}

// One of two numbers, by a test.
pub fn pick(first: bool, a: usize, b: usize) -> usize
    ensures { result ≡ cond first a b }
{
    if first { a } else { b }
}

// The fixed part of a type, in words, where n is the word that sizes it.
pub fn fixed_part(dim: usize, t: usize, n: u16) -> usize
    ensures { result ≡ fixed_part dim t n }
{
    let n = n as usize;
    match t {
        1 => 35,
        2 => pick(dim == 2, 46, 62),
        3 => pick(dim == 2, 26, 30),
        4 | 6 | 11 | 21 => pick(dim == 2, 19 + 4 * n, 19 + 6 * n),
        7 => pick(dim == 2, 35, 43),
        12 | 14 => 20,
        15 => pick(dim == 2, 36, 46),
        16 => pick(dim == 2, 40, 50),
        17 => texts::text_part(dim, n),
        18 => 21,
        19 => 21,
        _ => 2,
    }
}

// Whether a header may stand under a header of type `under` (0 at the top), and is read.
fn header_stands(dim: usize, under: usize, t: usize) -> bool
    requires { is_header t ≡ true }
    ensures { result ≡ may_stand dim under t }
{
    if is_counted(under) {
        return false;
    }
    if t == 1 {
        return under == 0;
    }
    if 17 < t {
        return dim != 2;
    }
    true
}

// Whether a type may stand under a header of type `under` (0 at the top), and is read.
pub fn may_stand(dim: usize, under: usize, t: usize) -> bool
    ensures { result ≡ may_stand dim under t }
{
    if is_header(t) {
        return header_stands(dim, under, t);
    }
    if is_unread(t) {
        return false;
    }
    if under == 7 {
        return t == 17;
    }
    true
}
