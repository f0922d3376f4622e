// Writing a text into a lent buffer: the checks, then the words one after another. The words and the checks are those of
// the crate text_fields; specs/Writing has the answer and what the buffer then holds.

#![tactic(auto)]

ghost use Rattle.std.specs.Prelude.{◌≡◌, true, [], ◌∷◌, ◌++◌, map, ◌+◌, ◌*◌, ◌≤◌, length};
ghost use Rattle.words.specs.Words.{over, unsigned};
ghost use Rattle.limits.specs.Limits.{dim_ok};
ghost use Rattle.fields.specs.Words.{longs};
ghost use Rattle.writer.specs.Writing.{laid};
ghost use Rattle.text_fields.specs.Words.{turn_longs, origin_of, number_words, text_bytes, text_size, text_words};
ghost use Rattle.text_fields.specs.Faults.{numbers_ok, text_fault};
ghost use Rattle.text_writer.specs.Writing.{WritesText};

use refusals::Refusal;

// Words 23 to 28 in 2D: the rotation and the origin.
fn put_flat(out: &mut [u8], text: text_fields::Text)
    requires { (58 ≤ length out.old) × (numbers_ok text ≡ true) }
    ensures { out.new ≡ laid out.old 23 (longs (turn_longs 2 text ++ map unsigned (origin_of 2 text))) }
{
    words::put_long(out, 23, text.first as u32);
    words::put_signed_long(out, 25, text.x);
    words::put_signed_long(out, 27, text.y);
}

// Words 23 to 36 in 3D: the four longs of the turn, and the origin.
fn put_solid(out: &mut [u8], text: text_fields::Text)
    requires { (74 ≤ length out.old) × (numbers_ok text ≡ true) }
    ensures { out.new ≡ laid out.old 23 (longs (turn_longs 3 text ++ map unsigned (origin_of 3 text))) }
{
    words::put_long(out, 23, text.first as u32);
    words::put_long(out, 25, text.second as u32);
    words::put_long(out, 27, text.third as u32);
    words::put_long(out, 29, text.fourth as u32);
    words::put_signed_long(out, 31, text.x);
    words::put_signed_long(out, 33, text.y);
    words::put_signed_long(out, 35, text.z);
}

// Words 18 to 22: font and justification, and the multipliers.
fn put_size(out: &mut [u8], text: text_fields::Text)
    requires { (46 ≤ length out.old) × (numbers_ok text ≡ true) }
    ensures { out.new ≡ laid out.old 18 ((text.font + 256 * text.justification) ∷ longs (text.length ∷ text.height ∷ [])) }
{
    words::put_word(out, 18, (text.font + 256 * text.justification) as u16);
    words::put_long(out, 19, text.length as u32);
    words::put_long(out, 21, text.height as u32);
}

// The numbers, from word 18 on.
fn put_numbers(out: &mut [u8], dim: usize, text: text_fields::Text)
    requires { (36 + 2 * length (number_words dim text) ≤ length out.old) × ((dim_ok dim ≡ true) × (numbers_ok text ≡ true)) }
    ensures { out.new ≡ laid out.old 18 (number_words dim text) }
{
    put_size(out, text);
    if dim == 2 {
        put_flat(out, text);
        return;
    }
    put_solid(out, text);
}

// The characters, the fields and the odd byte, from a byte on.
fn put_bytes(out: &mut [u8], at: usize, text: text_fields::Text, characters: &[u8], triples: &[u8])
    requires { (at + length (text_bytes text characters.now triples.now) ≤ length out.old) × (text.odd ≤ 255) }
    ensures { out.new ≡ over out.old at (text_bytes text characters.now triples.now) }
{
    let c = characters.len();
    let n = triples.len();
    copies::copy_in(out, at, characters);
    copies::copy_in(out, at + c, triples);
    let end = at + c + n;
    if (c + n) % 2 == 1 {
        out[end] = text.odd as u8;
    }
}

// All words, from the buffer's start on. Their number.
fn put_text(
    dim: usize,
    fields: fields::Fields,
    text: text_fields::Text,
    characters: &[u8],
    triples: &[u8],
    tail: &[u8],
    out: &mut [u8],
) -> usize
    requires { text_fault dim fields text characters.now triples.now tail.now (length out.old) ≡ 0 }
    ensures size { result ≡ text_size dim characters.now triples.now tail.now }
    ensures bytes { out.new ≡ laid out.old 0 (text_words dim fields text characters.now triples.now tail.now) }
{
    let n = thirds::third(triples.len());
    let counts = characters.len() + 256 * n;
    let place = texts::counts_word(dim);
    let part = texts::text_part(dim, counts);
    let size = part + tail.len() / 2;
    writer::put_header(out, fields, size);
    put_numbers(out, dim, text);
    words::put_word(out, place, counts as u16);
    put_bytes(out, 2 * place + 2, text, characters, triples);
    copies::copy_in(out, 2 * part, tail);
    size
}

// A text, written from the buffer's start on: its header fields, its numbers, its characters, its enter-data fields as triples
// of bytes, its tail. The answer holds the number of words. Where it is refused the buffer stays as it was.
pub fn write_text(
    fields: fields::Fields,
    text: text_fields::Text,
    characters: &[u8],
    triples: &[u8],
    tail: &[u8],
    dim: usize,
    out: &mut [u8],
) -> Result<usize, Refusal>
    ensures { WritesText dim fields text characters.now triples.now tail.now out.old result out.new }
{
    let fault = text_fields::text_fault(dim, fields, text, characters, triples, tail, out.len());
    if fault != 0 {
        return Err(Refusal {
            number: fault,
            place: 0,
        });
    }
    Ok(put_text(dim, fields, text, characters, triples, tail, out))
}
