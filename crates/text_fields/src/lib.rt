// The numbers of a text (type 17), and the checks of what is handed to the writer of a text, in their order. The definitions
// are in specs/: Words (a text's words), Faults (the checks).

#![tactic(auto)]

ghost use Rattle.std.specs.Prelude.{◌≡◌, ◌+◌, ◌*◌, ◌/◌, ◌≤◌};
ghost use Rattle.texts.specs.Texts.{text_part};
ghost use Rattle.fields.specs.Faults.{each_at_most};
ghost use Rattle.text_fields.specs.Faults.{byte_numbers, long_numbers, numbers_ok, flat_ok, lists_ok, odd_ok, text_arguments_ok, triples_ok, text_fault};

// All numbers of a text but those that follow from its characters and fields. The turn is the four longs `first` to `fourth` as
// they are stored; in 2D `first` is the rotation, and the other three and z are 0. `odd` is the byte behind characters and
// fields where they are odd in number, else 0.
#[derive(Clone, Copy)]
pub struct Text {
    pub font: usize,
    pub justification: usize,
    pub length: usize,
    pub height: usize,
    pub first: usize,
    pub second: usize,
    pub third: usize,
    pub fourth: usize,
    pub x: i32,
    pub y: i32,
    pub z: i32,
    pub odd: usize,
}

// 1: the numbers of a byte each.
fn bytes_ok(text: Text) -> bool
    ensures { result ≡ each_at_most 255 (byte_numbers text) }
{
    if 255 < text.font {
        return false;
    }
    if 255 < text.justification {
        return false;
    }
    if 255 < text.odd {
        return false;
    }
    true
}

// 1: the numbers of a long each.
fn longs_ok(text: Text) -> bool
    ensures { result ≡ each_at_most 4294967295 (long_numbers text) }
{
    if 4294967295 < text.length {
        return false;
    }
    if 4294967295 < text.height {
        return false;
    }
    if 4294967295 < text.first {
        return false;
    }
    if 4294967295 < text.second {
        return false;
    }
    if 4294967295 < text.third {
        return false;
    }
    if 4294967295 < text.fourth {
        return false;
    }
    true
}

// 1: all numbers.
fn numbers_ok(text: Text) -> bool
    ensures { result ≡ numbers_ok text }
{
    if !bytes_ok(text) {
        return false;
    }
    longs_ok(text)
}

// 1: what a text in 2D does not have.
fn flat_ok(dim: usize, text: Text) -> bool
    ensures { result ≡ flat_ok dim text }
{
    if dim != 2 {
        return true;
    }
    if 0 < text.second {
        return false;
    }
    if 0 < text.third {
        return false;
    }
    if 0 < text.fourth {
        return false;
    }
    text.z == 0
}

// 1: the number of characters and of the fields' bytes.
fn lists_ok(characters: usize, triples: usize) -> bool
    ensures { result ≡ lists_ok characters triples }
{
    if 255 < characters {
        return false;
    }
    let n = thirds::third(triples);
    if triples - 3 * n != 0 {
        return false;
    }
    triples <= 765
}

// 1: the odd byte, behind n bytes.
fn odd_ok(text: Text, n: usize) -> bool
    ensures { result ≡ odd_ok text n }
{
    if n % 2 == 1 {
        return true;
    }
    text.odd == 0
}

// 1: everything that is handed in, by its numbers and lengths.
fn arguments_ok(
    dim: usize,
    fields: fields::Fields,
    text: Text,
    characters: usize,
    triples: usize,
    tail: usize,
) -> bool
    ensures { result ≡ text_arguments_ok dim fields text characters triples tail }
{
    if !limits::dim_ok(dim) {
        return false;
    }
    if fields.kind != 17 {
        return false;
    }
    if !fields::fields_ok(fields) {
        return false;
    }
    if !numbers_ok(text) {
        return false;
    }
    if !flat_ok(dim, text) {
        return false;
    }
    if !lists_ok(characters, triples) {
        return false;
    }
    if !odd_ok(text, characters + triples) {
        return false;
    }
    tail % 2 == 0
}

// 20: each field, of a text of c characters.
fn triples_ok(c: usize, triples: &[u8]) -> bool
    ensures { result ≡ triples_ok c triples.now }
{
    let mut rest = triples;
    while let [first, size, justification, others @ ..] = rest {
        if !texts::field_ok(c, *first as usize, *size as usize, *justification as usize) {
            return false;
        }
        rest = others;
    }
    true
}

// The words before the tail.
fn words_before_tail(dim: usize, characters: usize, triples: usize) -> usize
    requires { (characters ≤ 255) × (triples ≤ 765) }
    ensures { result ≡ text_part dim (characters + 256 * (triples / 3)) }
{
    let n = thirds::third(triples);
    texts::text_part(dim, characters + 256 * n)
}

// The number of the first fault, 0 where there is none, with a buffer of `room` bytes. The attribute index counts from word 16.
pub fn text_fault(
    dim: usize,
    fields: fields::Fields,
    text: Text,
    characters: &[u8],
    triples: &[u8],
    tail: &[u8],
    room: usize,
) -> usize
    ensures { result ≡ text_fault dim fields text characters.now triples.now tail.now room }
{
    if !arguments_ok(
        dim,
        fields,
        text,
        characters.len(),
        triples.len(),
        tail.len(),
    ) {
        return 1;
    }
    if !triples_ok(characters.len(), triples) {
        return 20;
    }
    let part = words_before_tail(dim, characters.len(), triples.len());
    let size = part + tail.len() / 2;
    if 65535 < size {
        return 8;
    }
    if !fields::tail_ok(fields, part - 16, tail) {
        return 11;
    }
    if room < 2 * size {
        return 15;
    }
    0
}
