// The line that platelist prints of a cell, by its place in a file. The definitions are in specs/Plate.

#![tactic(auto)]

ghost use Rattle.words.specs.Words.{words};
ghost use Rattle.listing.specs.Lines.{WritesLine};
ghost use Rattle.plate_lines.specs.Plate.{line_with, line_in};

use plates::Plate;

// The line of the cell at a place with a plate.
fn line_with(at: usize, plate: Plate, buf: &mut [u8]) -> usize
    ensures { WritesLine 175 buf.old (line_with at plate) buf.new result }
{
    let name = names::unpack(plate.first, plate.second);
    let letters = match &name {
        Ok(text) => &text.letters[..text.length],
        Err(_) => &[],
    };
    listing::plate_line(
        buf,
        at,
        plate.lines,
        plate.pointed,
        plate.texts,
        plate.curves,
        plate.headers,
        plate.others,
        plate.levels,
        letters,
    )
}

// The line of the cell that starts at a place of a judged file, and the number of its bytes; of a deleted one, and of an element
// of another type, nothing. The buffer needs 175 bytes: with fewer nothing is written.
pub fn line(file: &[u8], at: usize, buf: &mut [u8]) -> usize
    ensures { WritesLine 175 buf.old (line_in (words file.now) at) buf.new result }
{
    if words::word(file, at) / 32768 % 2 == 1 {
        return 0;
    }
    match plates::plate_in(file, at) {
        Ok(plate) => line_with(at, plate, buf),
        Err(_) => 0,
    }
}
