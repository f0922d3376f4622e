// Inserting a piece and removing an element: calls of a session on its two lent buffers. Each opens the session (1, the file's
// own refusals, 1 for an early marker) and so finds its place, then its own refusals, 15 and 16, and changes the buffers
// last. Contracts: one step of edits' specs/Calls.

#![tactic(auto)]

ghost use Rattle.std.specs.Prelude.{◌≡◌, true, length};
ghost use Rattle.limits.specs.Limits.{size_ok};
ghost use Rattle.edits.specs.Calls.{insert_call, remove_call};
ghost use Rattle.opening.specs.Opening.{session_of, header_of};
ghost use Rattle.opening.specs.Steps.{Stepped, last_place, Open};
ghost use Rattle.moving.specs.Moving.{Stands};

use edits::UsedLengths;
use places::{Above, Spotted};
use refusals::Refusal;

// Inserts a piece in an open session.
fn insert_opened(
    file: &mut [u8],
    used: usize,
    journal: &mut [u8],
    jused: usize,
    dim: usize,
    marker: usize,
    header: Above,
    place: usize,
    found: Result<Spotted, Refusal>,
    piece: &[u8],
) -> Result<UsedLengths, Refusal>
    requires fact { Open dim file.old used journal.old jused place found }
    requires marker_value { marker ≡ last_place file.old used }
    requires piece_value { size_ok (length piece.now) ≡ true }
    ensures { Stepped dim (session_of file.old used journal.old jused) (insert_call (header_of header) place piece.now) result file.new journal.new }
{
    faults::insert_fault(&file[..used], dim, marker, found, header, place, piece)?;
    if file.len() - used < piece.len() {
        return Err(opening::refused(15));
    }
    if journal.len() - jused < 12 {
        return Err(opening::refused(16));
    }
    journals::push(
        journal,
        jused,
        3,
        opening::header_number(header),
        place,
        &[],
    );
    changes::insert_piece(file, used, header, place, piece);
    Ok(UsedLengths {
        used: used + piece.len(),
        jused: jused + 12,
    })
}

// Inserts a piece, one whole extent, under a header or at the top, at a place where a direct component starts or the list
// ends.
pub fn insert(
    file: &mut [u8],
    used: usize,
    journal: &mut [u8],
    jused: usize,
    dim: usize,
    header: Above,
    place: usize,
    piece: &[u8],
) -> Result<UsedLengths, Refusal>
    ensures { Stepped dim (session_of file.old used journal.old jused) (insert_call (header_of header) place piece.now) result file.new journal.new }
{
    if !limits::size_ok(piece.len()) {
        return Err(opening::refused(1));
    }
    let opened = opening::open_at(file, used, journal.len(), jused, dim, place)?;
    insert_opened(
        file,
        used,
        journal,
        jused,
        dim,
        opened.marker,
        header,
        place,
        opened.found,
        piece,
    )
}

// Removes the element at a place, whose extent ends at `end` and which stands under `above`, in an open session.
fn remove_found(
    file: &mut [u8],
    used: usize,
    journal: &mut [u8],
    jused: usize,
    dim: usize,
    place: usize,
    end: usize,
    above: Above,
) -> Result<UsedLengths, Refusal>
    requires { Stands dim file.old used journal.old jused place end above }
    ensures { Stepped dim (session_of file.old used journal.old jused) (remove_call place) result file.new journal.new }
{
    let n = 2 * (end - place);
    if journal.len() - jused < n + 12 {
        return Err(opening::refused(16));
    }
    journals::push(
        journal,
        jused,
        4,
        opening::header_number(above),
        place,
        &file[2 * place..2 * end],
    );
    changes::remove_extent(file, used, above, place, end - place);
    Ok(UsedLengths {
        used: used - n,
        jused: jused + n + 12,
    })
}

// Removes the element at a place in an open session.
fn remove_opened(
    file: &mut [u8],
    used: usize,
    journal: &mut [u8],
    jused: usize,
    dim: usize,
    place: usize,
    found: Result<Spotted, Refusal>,
) -> Result<UsedLengths, Refusal>
    requires { Open dim file.old used journal.old jused place found }
    ensures { Stepped dim (session_of file.old used journal.old jused) (remove_call place) result file.new journal.new }
{
    let spot = found?;
    remove_found(file, used, journal, jused, dim, place, spot.end, spot.above)
}

// Removes the element at a place with its extent.
pub fn remove(
    file: &mut [u8],
    used: usize,
    journal: &mut [u8],
    jused: usize,
    dim: usize,
    place: usize,
) -> Result<UsedLengths, Refusal>
    ensures { Stepped dim (session_of file.old used journal.old jused) (remove_call place) result file.new journal.new }
{
    let opened = opening::open_at(file, used, journal.len(), jused, dim, place)?;
    remove_opened(file, used, journal, jused, dim, place, opened.found)
}
