// The plate of a cell: its code, how many live direct components it has of each kind, and how many levels its mask sets.
// Definitions: specs/Plates. A crate above the library: its proofs cite the definitions of the crates below and the page
// promises alone (docs/ARCHITECTURE.md, "A crate above the library").

#![tactic(auto)]

ghost use Rattle.std.specs.Prelude.{◌≡◌, ◌+◌, ◌/◌, ◌≤◌, ◌<◌, length};
ghost use Rattle.std.specs.Int.Count.{ones_in};
ghost use Rattle.words.specs.Words.{words, word_at};
ghost use Rattle.plates.specs.Plates.{levels_at, plate_of};
ghost use Rattle.plates.specs.Hops.{kind_of, slot_of, Tallies, plate_here, plate_in};

use places::spotted_at;
use refusals::Refusal;

// A cell's plate: the two words of its name; how many of its direct components are live and lines, of types 4, 6, 11 or 21,
// texts, ellipses or arcs, headers, and of other types; how many levels are set.
#[derive(Clone, Copy)]
pub struct Plate {
    pub first: usize,
    pub second: usize,
    pub lines: usize,
    pub pointed: usize,
    pub texts: usize,
    pub curves: usize,
    pub headers: usize,
    pub others: usize,
    pub levels: usize,
}

// The number of a type's kind, 0 to 5.
fn kind_of(t: usize) -> usize
    ensures { result ≡ kind_of t }
{
    if t == 3 {
        return 0;
    }
    if kinds::is_pointed(t) {
        return 1;
    }
    if t == 17 {
        return 2;
    }
    if kinds::is_curve(t) {
        return 3;
    }
    kinds::pick(kinds::is_header(t), 4, 5)
}

// The same of an element by its word 0; 6 where it is deleted.
fn slot_of(w: usize) -> usize
    ensures { result ≡ slot_of w }
{
    if w / 32768 % 2 == 1 {
        return 6;
    }
    kind_of(kinds::type_of(w))
}

// How many elements are of each kind, from one on up to an end, each behind the extent of the one before.
fn tally(file: &[u8], from: usize, end: usize) -> [usize; 7]
    requires { end ≤ length file.now / 2 }
    ensures { Tallies (words file.now) from end result }
{
    let mut counts = [0; 7];
    let mut here = from;
    while here < end {
        // the next place first: it does not wait for the branches of the kind
        let next = here + headers::extent_words(file, here);
        let slot = slot_of(words::word(file, here));
        counts[slot] += 1;
        here = next;
    }
    counts
}

// The one bits of word i.
fn ones(file: &[u8], i: usize) -> usize
    ensures value { result ≡ ones_in 16 (word_at (words file.now) i) }
    ensures upper_bound { result ≤ 16 }
{
    let mask = words::word(file, i) as u16;
    u16::count_ones(mask) as usize
}

// How many levels the four mask words of the cell at a place set.
fn levels_at(file: &[u8], at: usize) -> usize
    requires { at < length file.now / 2 }
    ensures { result ≡ levels_at (words file.now) at }
{
    ones(file, at + 22) + ones(file, at + 23) + ones(file, at + 24) + ones(file, at + 25)
}

// The plate of the cell at a place.
fn plate_here(file: &[u8], at: usize) -> Plate
    requires { at < length file.now / 2 }
    ensures { result ≡ plate_here (words file.now) at }
{
    let long = file.len() / 2;
    let end = at + headers::extent_words(file, at);
    let stop = kinds::pick(end < long, end, long);
    let counts = tally(file, at + headers::size_at(file, at), stop);
    let name = at + kinds::pick(headers::type_at(file, at) == 1, 16, 19);
    Plate {
        first: words::word(file, name),
        second: words::word(file, name + 1),
        lines: counts[0],
        pointed: counts[1],
        texts: counts[2],
        curves: counts[3],
        headers: counts[4],
        others: counts[5],
        levels: levels_at(file, at),
    }
}

// The same of the element that starts at a place of a judged file; 18 where it is no cell.
pub fn plate_in(file: &[u8], at: usize) -> Result<Plate, Refusal>
    ensures { result ≡ plate_in (words file.now) at }
{
    if !cells::is_cell(file, at) {
        return Err(Refusal {
            number: 18,
            place: 0,
        });
    }
    Ok(plate_here(file, at))
}

// The plate of the cell at a place of a file: 1, the file's own refusals, 13, then 18.
pub fn plate_at(file: &[u8], dim: usize, place: usize) -> Result<Plate, Refusal>
    ensures { result ≡ plate_of dim file.now place }
{
    spotted_at(file, dim, place)?;
    plate_in(file, place)
}
