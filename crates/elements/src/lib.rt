// One element alone: all rules that do not look at its components. The definitions are in specs/: Attributes, Rules (the
// order of checks); those of its fields are in headers, those of the types in kinds.

#![tactic(auto)]

ghost use Rattle.std.specs.Prelude.{◌≡◌, true, false, not, ◌&&◌, ◌||◌, [], ◌∷◌, ℕ, ◌+◌, ◌<◌, ◌≤◌, ◌^◌, eqb, leb};
ghost use Rattle.words.specs.Words.{words};
ghost use Rattle.kinds.specs.Kinds.{is_header, is_curve, is_linked, is_unread, fixed_part, may_stand};
ghost use Rattle.headers.specs.Checks.{check, first_fault};
ghost use Rattle.headers.specs.Header.{type_at, size_at, sizing_at, extent_at, attributes_at};
ghost use Rattle.elements.specs.Attributes.{attributes_ok, linkages_ok};
ghost use Rattle.elements.specs.Rules.{fixed_ok, stored_name_ok, content_checks, HeadRead};
ghost use Rattle.elements.specs.Simple.{simple_checks};

// What one element is read as: refused with a number; an element that its own words end; or a header, whose
// components stand from `inner` to `end`.
#[derive(Clone, Copy)]
pub enum Head {
    Bad { number: usize },
    Plain { next: usize },
    Complex { inner: usize, end: usize },
}

// 8, of an element that is no header.
fn size_ok(size: usize) -> bool
    ensures { result ≡ leb size 65535 }
{
    size <= 65535
}

// The number of the first fault of a raw element, 0 where there is none.
fn raw_fault(t: usize, size: usize, under: usize) -> usize
    ensures { result ≡ first_fault (check (not (eqb under 7)) 6 ∷ check (not (is_unread t)) 6 ∷ check (leb size 65535) 8 ∷ []) }
{
    if under == 7 {
        return 6;
    }
    if kinds::is_unread(t) {
        return 6;
    }
    if !size_ok(size) {
        return 8;
    }
    0
}

// 7, of type 3 or a type with points: its fixed part, or a number above every size where N is wrong. Word 18 is read only
// where it is the element's own.
fn plain_part(s: &[u8], at: usize, t: usize, size: usize, dim: usize) -> usize
    requires t_value { (t ≡ type_at (words s.now) at) × (size ≡ size_at (words s.now) at) }
    requires t_value_2 { (is_linked t ≡ true) × ((is_header t ≡ false) × ((is_curve t ≡ false) × ((eqb t 17 ≡ false) × (at + size < 2 ^ 64)))) }
    ensures { (leb result size ≡ fixed_ok dim (words s.now) at) × (fixed_ok dim (words s.now) at ≡ true → result ≡ fixed_part dim t (sizing_at dim (words s.now) at)) }
{
    if t == 3 {
        return kinds::pick(dim == 2, 26, 30);
    }
    if size < 19 {
        return 65540;
    }
    let n = words::word(s, at + 18);
    if n < 2 {
        return 65540;
    }
    if 101 < n {
        return 65540;
    }
    kinds::pick(dim == 2, 19 + 4 * n, 19 + 6 * n)
}

// The attribute part, where A is set: where it begins, and that linkages fill it. The fixed part is given.
fn attributes_ok(s: &[u8], at: usize, fixed: usize, size: usize) -> bool
    requires size_value { size ≡ size_at (words s.now) at }
    requires le_size { (18 ≤ size) × (at + size < 2 ^ 64) }
    ensures { (dim : ℕ) → fixed ≡ fixed_part dim (type_at (words s.now) at) (sizing_at dim (words s.now) at) → result ≡ (not (attributes_at (words s.now) at) || attributes_ok dim (words s.now) at) }
{
    if words::word(s, at + 16) / 2048 % 2 != 1 {
        return true;
    }
    let part = 16 + words::word(s, at + 15);
    if part < fixed {
        return false;
    }
    if size < part {
        return false;
    }
    linkages::linkages_fill(s, at + part, at + size)
}

// The number of the first fault in what a text holds, 0 where there is none. The counts are read only where they are its
// own.
fn text_fault(s: &[u8], at: usize, size: usize, dim: usize) -> usize
    requires { (17 ≡ type_at (words s.now) at) × ((size ≡ size_at (words s.now) at) × (at + size < 2 ^ 64)) }
    ensures { result ≡ first_fault (simple_checks dim (words s.now) at size) }
{
    let place = texts::counts_word(dim);
    if size <= place {
        return 7;
    }
    let counts = words::word(s, at + place);
    let fixed = texts::text_part(dim, counts);
    if size < fixed {
        return 7;
    }
    if !texts::counted_fields_ok(s, at, dim, counts) {
        return 20;
    }
    if !size_ok(size) {
        return 8;
    }
    if !attributes_ok(s, at, fixed, size) {
        return 11;
    }
    0
}

// The fixed part of an ellipse or an arc.
fn curve_part(dim: usize, t: usize) -> usize
    requires { is_curve t ≡ true }
    ensures { (n : ℕ) → result ≡ fixed_part dim t n }
{
    kinds::pick(
        t == 15,
        kinds::pick(dim == 2, 36, 46),
        kinds::pick(dim == 2, 40, 50),
    )
}

// The number of the first fault in what an ellipse or an arc holds, 0 where there is none.
fn curve_fault(s: &[u8], at: usize, t: usize, size: usize, dim: usize) -> usize
    requires t_value { (t ≡ type_at (words s.now) at) × (size ≡ size_at (words s.now) at) }
    requires t_value_2 { (is_curve t ≡ true) × (at + size < 2 ^ 64) }
    ensures { result ≡ first_fault (simple_checks dim (words s.now) at size) }
{
    let fixed = curve_part(dim, t);
    if size < fixed {
        return 7;
    }
    if !size_ok(size) {
        return 8;
    }
    if !attributes_ok(s, at, fixed, size) {
        return 11;
    }
    if !curves::floats_ok(s, at, t, dim) {
        return 21;
    }
    0
}

// Whether a known type that is no header is an ellipse, an arc or a text. Asked by the order of the types: most elements have
// one of the first.
fn is_late(t: usize) -> bool
    requires { (is_linked t ≡ true) × (is_header t ≡ false) }
    ensures { result ≡ (is_curve t || eqb t 17) }
{
    if t < 15 {
        return false;
    }
    t != 21
}

// The number of the first fault of an ellipse, an arc or a text, 0 where there is none: only a text may stand under 7.
fn late_fault(s: &[u8], at: usize, t: usize, size: usize, under: usize, dim: usize) -> usize
    requires t_value { (t ≡ type_at (words s.now) at) × (size ≡ size_at (words s.now) at) }
    requires t_value_2 { ((is_curve t || eqb t 17) ≡ true) × (at + size < 2 ^ 64) }
    ensures { result ≡ first_fault (check (not (eqb under 7) || eqb t 17) 6 ∷ simple_checks dim (words s.now) at size) }
{
    if t == 17 {
        return text_fault(s, at, size, dim);
    }
    if under == 7 {
        return 6;
    }
    curve_fault(s, at, t, size, dim)
}

// The number of the first fault of an element of a known type that is no header, 0 where there is none: only type 17 may
// stand under 7.
fn plain_fault(s: &[u8], at: usize, t: usize, size: usize, under: usize, dim: usize) -> usize
    requires t_value { (t ≡ type_at (words s.now) at) × (size ≡ size_at (words s.now) at) }
    requires t_value_2 { (is_linked t ≡ true) × ((is_header t ≡ false) × (at + size < 2 ^ 64)) }
    ensures { result ≡ first_fault (check (not (eqb under 7) || eqb t 17) 6 ∷ simple_checks dim (words s.now) at size) }
{
    if is_late(t) {
        return late_fault(s, at, t, size, under, dim);
    }
    if under == 7 {
        return 6;
    }
    let fixed = plain_part(s, at, t, size, dim);
    if size < fixed {
        return 7;
    }
    if !size_ok(size) {
        return 8;
    }
    if !attributes_ok(s, at, fixed, size) {
        return 11;
    }
    0
}

// The number of the first fault of an element that is no header, 0 where there is none.
fn simple_fault(s: &[u8], at: usize, t: usize, size: usize, under: usize, dim: usize) -> usize
    requires t_value { (t ≡ type_at (words s.now) at) × (size ≡ size_at (words s.now) at) }
    requires t_value_2 { (is_header t ≡ false) × (at + size < 2 ^ 64) }
    ensures { result ≡ first_fault (check (may_stand dim under t) 6 ∷ simple_checks dim (words s.now) at size) }
{
    if kinds::is_linked(t) {
        return plain_fault(s, at, t, size, under, dim);
    }
    raw_fault(t, size, under)
}

// 8, of a header: its extent. A size above 65,535 words is above its extent, or its extent is above 65,535 words.
fn extent_ok(s: &[u8], at: usize, size: usize, room: usize) -> bool
    requires { at + 20 < 2 ^ 64 }
    ensures { result ≡ (leb size (extent_at (words s.now) at) && (leb (extent_at (words s.now) at) room && leb (extent_at (words s.now) at) 65535)) }
{
    let extent = 19 + words::word(s, at + 18);
    if extent < size {
        return false;
    }
    if room < extent {
        return false;
    }
    extent <= 65535
}

// 11, of a header, whose fixed part is given: only type 1 has no attributes.
fn linkages_ok(s: &[u8], at: usize, t: usize, fixed: usize, size: usize) -> bool
    requires t_value { (t ≡ type_at (words s.now) at) × (size ≡ size_at (words s.now) at) }
    requires t_value_2 { (is_header t ≡ true) × ((18 ≤ size) × (at + size < 2 ^ 64)) }
    ensures { (dim : ℕ) → fixed ≡ fixed_part dim (type_at (words s.now) at) (sizing_at dim (words s.now) at) → result ≡ linkages_ok dim (words s.now) at }
{
    if t == 1 {
        return true;
    }
    attributes_ok(s, at, fixed, size)
}

// 12: the stored name of a cell.
fn stored_name_ok(s: &[u8], at: usize, t: usize) -> bool
    requires { (t ≡ type_at (words s.now) at) × (at + 20 < 2 ^ 64) }
    ensures { result ≡ stored_name_ok (words s.now) at }
{
    if t == 1 {
        return names::name_ok(words::word(s, at + 16), words::word(s, at + 17));
    }
    if t == 2 {
        return names::name_ok(words::word(s, at + 19), words::word(s, at + 20));
    }
    true
}

// The fixed part of a header. All are worked out and one is picked: which type it is alternates.
fn header_part(dim: usize, t: usize) -> usize
    requires { is_header t ≡ true }
    ensures { result ≡ fixed_part dim t 0 }
{
    let cell = kinds::pick(dim == 2, 46, 62);
    let node = kinds::pick(dim == 2, 35, 43);
    let early = kinds::pick(t == 1, 35, kinds::pick(t == 2, cell, node));
    kinds::pick(t < 12, early, kinds::pick(t < 18, 20, 21))
}

// The number of the first fault of a header, 0 where there is none.
fn header_fault(
    s: &[u8],
    at: usize,
    t: usize,
    size: usize,
    room: usize,
    under: usize,
    dim: usize,
) -> usize
    requires t_value { (t ≡ type_at (words s.now) at) × (size ≡ size_at (words s.now) at) }
    requires t_value_2 { (is_header t ≡ true) × (at + size < 2 ^ 64) }
    ensures { result ≡ first_fault (check (may_stand dim under t) 6 ∷ content_checks dim (words s.now) at room) }
{
    if !kinds::may_stand(dim, under, t) {
        return 6;
    }
    // no header is shorter; the compiler drops the tests of the reads that this answers
    if size < 20 {
        return 7;
    }
    let fixed = header_part(dim, t);
    if size < fixed {
        return 7;
    }
    if !extent_ok(s, at, size, room) {
        return 8;
    }
    if !linkages_ok(s, at, t, fixed, size) {
        return 11;
    }
    if !stored_name_ok(s, at, t) {
        return 12;
    }
    0
}

// What the element at a place is read as: the place `bound` is its bound, `depth` how many headers stand above it,
// and `under` the type of its direct header, 0 at the top.
pub fn head_at(s: &[u8], at: usize, bound: usize, depth: usize, under: usize, dim: usize) -> Head
    ensures { HeadRead dim depth under s.now at bound result }
{
    if bound < 2 {
        return Head::Bad { number: 3 };
    }
    if bound - 2 < at {
        return Head::Bad { number: 3 };
    }
    let room = bound - at;
    let w = words::word(s, at);
    let size = words::word(s, at + 1) + 2;
    if room < size {
        return Head::Bad { number: 3 };
    }
    let flagged = headers::flag_fault(w, depth);
    if flagged != 0 {
        return Head::Bad { number: flagged };
    }
    let t = kinds::type_of(w);
    let next = at + size;
    if kinds::is_header(t) {
        let wrong = header_fault(s, at, t, size, room, under, dim);
        if wrong != 0 {
            return Head::Bad { number: wrong };
        }
        let total = words::word(s, at + 18);
        let end = at + (19 + total);
        return Head::Complex { inner: next, end };
    }
    let wrong = simple_fault(s, at, t, size, under, dim);
    if wrong != 0 {
        return Head::Bad { number: wrong };
    }
    Head::Plain { next }
}
