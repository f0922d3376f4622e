// The own rules of a text: how long its fixed part is and whether its enter-data fields are right. Reads are total: what
// stands beyond the slice is 0. The definitions are in specs/Texts.

#![tactic(auto)]

ghost use Rattle.std.specs.Prelude.{◌≡◌, true, ◌+◌, ◌*◌, ◌/◌, ◌<◌, ◌^◌, length};
ghost use Rattle.words.specs.Words.{words};
ghost use Rattle.texts.specs.Texts.{byte_at, counts_word, text_part, characters_in, fields_in, field_byte, field_ok, each_field_ok, fields_ok};

// Byte k of the slice's words.
pub fn byte(s: &[u8], k: usize) -> usize
    ensures { result ≡ byte_at (words s.now) 0 k }
{
    if k / 2 < s.len() / 2 {
        s[k] as usize
    } else {
        0
    }
}

// The word of the counts, from the text's start.
pub fn counts_word(dim: usize) -> usize
    ensures { result ≡ counts_word dim }
{
    if dim == 2 { 29 } else { 37 }
}

// The fixed part, in words, by the word of the counts.
pub fn text_part(dim: usize, counts: usize) -> usize
    ensures { result ≡ text_part dim counts }
{
    counts_word(dim) + 1 + (counts % 256 + 3 * (counts / 256) + 1) / 2
}

// One field, of a text of c characters.
pub fn field_ok(c: usize, first: usize, size: usize, justification: usize) -> bool
    ensures { result ≡ field_ok c first size justification }
{
    if first < 1 {
        return false;
    }
    if c < first {
        return false;
    }
    if c - first + 1 < size {
        return false;
    }
    if justification == 255 {
        return true;
    }
    justification < 2
}

// Byte k of the slice's words. Where `known` holds it is there, and is not tested for.
fn known_byte(s: &[u8], k: usize, known: bool) -> usize
    requires { known ≡ true → k / 2 < length s.now / 2 }
    ensures { result ≡ byte_at (words s.now) 0 k }
{
    if known {
        return s[k] as usize;
    }
    byte(s, k)
}

// n fields of a text of c characters, from byte j of the slice on. Whether all bytes are there is asked once: the compiler
// then makes a loop without that test.
fn each_field_ok(s: &[u8], n: usize, c: usize, j: usize) -> bool
    requires { j + 3 * n < 2 ^ 64 }
    ensures { result ≡ each_field_ok n c (words s.now) 0 j }
{
    let known = j + 3 * n <= s.len() / 2 * 2;
    for k in 0..n {
        let here = j + 3 * k;
        let first = known_byte(s, here, known);
        let size = known_byte(s, here + 1, known);
        let justification = known_byte(s, here + 2, known);
        if !field_ok(c, first, size, justification) {
            return false;
        }
    }
    true
}

// All fields of the text at a place, by the word of its counts.
pub fn counted_fields_ok(s: &[u8], at: usize, dim: usize, counts: usize) -> bool
    ensures { result ≡ each_field_ok (fields_in counts) (characters_in counts) (words s.now) at (field_byte dim counts 0) }
{
    if counts < 256 {
        return true;
    }
    if s.len() / 2 <= at {
        return false;
    }
    let start = 2 * at;
    let first = 2 * (counts_word(dim) + 1) + counts % 256;
    each_field_ok(&s[start..], counts / 256, counts % 256, first)
}

// All fields of the text at a place.
pub fn fields_ok(s: &[u8], at: usize, dim: usize) -> bool
    ensures { result ≡ fields_ok dim (words s.now) at }
{
    if s.len() / 2 <= at {
        return true;
    }
    counted_fields_ok(s, at, dim, words::word(s, at + counts_word(dim)))
}
