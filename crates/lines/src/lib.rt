// The line that celllist prints of an element, by its place in a file. The definitions are in specs/Element.

#![tactic(auto)]

ghost use Rattle.std.specs.Prelude.{◌≡◌, ◌+◌, ◌≤◌};
ghost use Rattle.words.specs.Words.{words, WordRead};
ghost use Rattle.headers.specs.Header.{type_at};
ghost use Rattle.listing.specs.Lines.{WritesLine};
ghost use Rattle.lines.specs.Element.{line_of, Named};

use names::{NoText, Unpacked};

// Word k of the element at a place.
fn word_of(file: &[u8], at: usize, k: usize) -> usize
    requires { k ≤ 20 }
    ensures { WordRead file.now (at + k) result }
{
    if at < file.len() {
        words::word(file, at + k)
    } else {
        0
    }
}

// The name of the element at a place, by its type; a type that has none answers as words that are no name, for which no table
// is read.
fn name_of(file: &[u8], at: usize, kind: usize) -> Result<Unpacked, NoText>
    requires { kind ≡ type_at (words file.now) at }
    ensures { Named (words file.now) at result }
{
    if kind == 1 {
        return names::unpack(word_of(file, at, 16), word_of(file, at, 17));
    }
    if kind == 2 {
        return names::unpack(word_of(file, at, 19), word_of(file, at, 20));
    }
    names::unpack(65535, 0)
}

// The line of the element that starts at a place of a file, and the number of its bytes. Where nothing stands all words
// are 0. The buffer needs 100 bytes: with fewer nothing is written.
pub fn line(file: &[u8], at: usize, depth: usize, buf: &mut [u8]) -> usize
    ensures { WritesLine 100 buf.old (line_of (words file.now) at depth) buf.new result }
{
    let first = words::word(file, at);
    let kind = kinds::type_of(first);
    let size = word_of(file, at, 1) + 2;
    let deleted = first / 32768 % 2 == 1;
    let name = name_of(file, at, kind);
    let letters = match &name {
        Ok(text) => &text.letters[..text.length],
        Err(_) => &[],
    };
    listing::element_line(buf, at, depth, kind, size, deleted, letters)
}
