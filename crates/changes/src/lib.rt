// Two edits on a file's buffer, made once nothing refuses them: a piece put in and an extent taken out, with the totals on
// the path. Definitions: specs/Changes; proofs/Made: on an accepted file these bytes, and those of rename_cell and of the
// crate flags, are the book's words, stored.
//
// The name of the cell at a place of a file's used part: its two words read as bytes, and written over. Definitions:
// specs/CellNames.

#![tactic(auto)]

ghost use Rattle.std.specs.Prelude.{◌≡◌, ◌<◌, length};
ghost use Rattle.words.specs.Words.{words};
ghost use Rattle.headers.specs.Header.{name_place};
ghost use Rattle.changes.specs.Changes.{totals_under, piece_in, extent_out};
ghost use Rattle.changes.specs.CellNames.{name_put, name_bytes, cell_name};

use places::Above;

// Corrects the totals on the path down to a header, if there is one.
fn correct_under(used: &mut [u8], header: Above, up: bool, n: usize)
    ensures { used.new ≡ totals_under up n header used.old }
{
    match header {
        Above::Top => {}
        Above::Under { place } => {
            totals::correct_totals(used, place, up, n);
        }
    }
}

// Puts a piece in at a place under a header or at the top.
pub fn insert_piece(file: &mut [u8], used: usize, header: Above, place: usize, piece: &[u8])
    ensures { file.new ≡ piece_in file.old used header place piece.now }
{
    if used <= file.len() {
        correct_under(&mut file[..used], header, true, piece.len() / 2);
        buffers::insert_words(file, used, place, piece);
    }
}

// Takes n words out at a place under a header or at the top.
pub fn remove_extent(file: &mut [u8], used: usize, header: Above, place: usize, n: usize)
    ensures { file.new ≡ extent_out file.old used header place n }
{
    if used <= file.len() {
        correct_under(&mut file[..used], header, false, n);
        buffers::remove_words(file, used, place, n);
    }
}

// Where the name of the cell at a place stands.
fn name_place(used: &[u8], place: usize) -> usize
    requires { place < length used.now }
    ensures { result ≡ name_place (words used.now) place }
{
    if headers::type_at(used, place) == 1 {
        return place + 16;
    }
    place + 19
}

// Two name words as bytes.
pub fn name_bytes(first: u16, second: u16) -> [u8; 4]
    ensures { result ≡ name_bytes first second }
{
    [
        (first % 256) as u8,
        (first / 256 % 256) as u8,
        (second % 256) as u8,
        (second / 256 % 256) as u8,
    ]
}

// The name words of the cell at a place of a file's used part, as bytes.
pub fn cell_name(used: &[u8], place: usize) -> [u8; 4]
    ensures { result ≡ cell_name (words used.now) place }
{
    if place < used.len() {
        let at = name_place(used, place);
        return name_bytes(
            words::word(used, at) as u16,
            words::word(used, at + 1) as u16,
        );
    }
    [0; 4]
}

// Writes two words over the name of the cell at a place of a file's used part.
pub fn rename_cell(used: &mut [u8], place: usize, first: u16, second: u16)
    ensures { used.new ≡ name_put place first second used.old }
{
    if place < used.len() {
        let at = name_place(used, place);
        words::put_word(used, at, first);
        words::put_word(used, at + 1, second);
    }
}
