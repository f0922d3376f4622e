// The cells of a file, and their number by a walk over sizes alone. Definitions: specs/Cells; the index of a file: specs/Index.

#![tactic(auto)]

ghost use Rattle.std.specs.Prelude.{◌≡◌, length};
ghost use Rattle.words.specs.Words.{words};
ghost use Rattle.headers.specs.Header.{type_at};
ghost use Rattle.kinds.specs.Kinds.{is_cell};
ghost use Rattle.cells.specs.Cells.{cells_between};

// Whether the element at a place is of type 1 or 2.
pub fn is_cell(s: &[u8], at: usize) -> bool
    ensures { result ≡ is_cell (type_at (words s.now) at) }
{
    let t = headers::type_at(s, at);
    if t == 1 {
        return true;
    }
    t == 2
}

// The number of cells among the elements from a place on, up to another place or the last word. Of a judged file from 0 to
// its marker: those of the file; from an element's place to its extent's end: those of the extent; of a piece from 0 to its
// end: those of the piece.
pub fn count_cells(s: &[u8], from: usize, to: usize) -> usize
    ensures { result ≡ length (cells_between (words s.now) from to) }
{
    let bound = s.len() / 2;
    let end = kinds::pick(to < bound, to, bound);
    let mut at = from;
    let mut n = 0;
    while at < end {
        n += kinds::pick(is_cell(s, at), 1, 0);
        at += headers::size_at(s, at);
    }
    n
}
