// The line that textlist prints of a text, by its place in a 2D file. The definitions are in specs/Text.

#![tactic(auto)]

ghost use Rattle.std.specs.Prelude.{◌≡◌, min, length};
ghost use Rattle.listing.specs.Lines.{WritesLine};
ghost use Rattle.listing.specs.Texts.{text_room};
ghost use Rattle.text_lines.specs.Text.{characters_of, text_line_of};

// The smaller of two numbers.
fn least(a: usize, b: usize) -> usize
    ensures { result ≡ min a b }
{
    if a < b { a } else { b }
}

// The line of the text that starts at a place of a file, and the number of its bytes; of an element of another type
// nothing. The buffer needs 48 bytes and four for each character, at most 1,068: with fewer nothing is written.
pub fn line(file: &[u8], at: usize, depth: usize, buf: &mut [u8]) -> usize
    ensures { WritesLine (text_room (length (characters_of file.now at))) buf.old (text_line_of file.now at depth) buf.new result }
{
    if file.len() / 2 <= at {
        return 0;
    }
    let first = words::word(file, at);
    if kinds::type_of(first) != 17 {
        return 0;
    }
    let counts = at + texts::counts_word(2);
    let characters = words::word(file, counts) % 256;
    let start = least(2 * (counts + 1), file.len());
    let end = least(start + characters, file.len());
    let deleted = first / 32768 % 2 == 1;
    listing::text_line(buf, at, depth, deleted, &file[start..end])
}
