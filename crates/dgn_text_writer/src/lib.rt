// The C interface of the writer of texts, as in include/dgn.h. No logic: what the function is handed and leaves is in
// specs/Writing.

#![tactic(auto)]

ghost use Rattle.std.specs.Prelude.{◌≡◌, true, eqb, ◌%◌};
ghost use Rattle.dgn_text_writer.specs.Writing.{text_given, odd_by, text_of, WroteText};

use write_answers::natural;

// Whether a slice is the numbers of a text.
fn text_given(text: &[i64]) -> bool
    ensures { result ≡ text_given text.now }
{
    if text.len() != 12 {
        return false;
    }
    if !ranges::is_coordinate(text[8]) {
        return false;
    }
    if !ranges::is_coordinate(text[9]) {
        return false;
    }
    ranges::is_coordinate(text[10])
}

// The odd byte behind n bytes.
fn odd_of(v: i64, n: usize) -> usize
    ensures { result ≡ odd_by (eqb (n % 2) 0) v }
{
    if v == -1 {
        return kinds::pick(n % 2 == 0, 0, 4294967296);
    }
    natural(v)
}

// The numbers of a text out of a slice.
fn text_of(text: &[i64], n: usize) -> text_fields::Text
    requires { text_given text.now ≡ true }
    ensures { result ≡ text_of n text.now }
{
    text_fields::Text {
        font: natural(text[0]),
        justification: natural(text[1]),
        length: natural(text[2]),
        height: natural(text[3]),
        first: natural(text[4]),
        second: natural(text[5]),
        third: natural(text[6]),
        fourth: natural(text[7]),
        x: text[8] as i32,
        y: text[9] as i32,
        z: text[10] as i32,
        odd: odd_of(text[11], n),
    }
}

#[unsafe(no_mangle)]
pub extern "C" fn dgn_write_text(
    fields: &[i64],
    text: &[i64],
    characters: &[u8],
    triples: &[u8],
    tail: &[u8],
    dim: usize,
    buffer: &mut [u8],
    out: &mut [usize],
) -> usize
    ensures { WroteText dim fields.now text.now characters.now triples.now tail.now buffer.old out.old result buffer.new out.new }
{
    if out.len() < 1 {
        return 1;
    }
    if !text_given(text) {
        return 1;
    }
    let numbers = text_of(text, characters.len() + triples.len());
    match write_answers::fields_in(fields) {
        Some(fields) => write_answers::put_written(
            out,
            text_writer::write_text(fields, numbers, characters, triples, tail, dim, buffer),
        ),
        None => 1,
    }
}
