// The refusals of edits on the used part of an accepted file, by what was found at the edit's place; nothing is changed
// here. Mark and rename: which number (specs/Faults). Insert: by the header that it names, the place, the piece and the
// room, with the place of the file's marker (specs/Inserting). A journal's record: whether its reversal is allowed
// (specs/Reversing). proofs/ExactMarks, ExactInserts, ExactReversals: on an accepted file they are those of the crate
// edits.

#![tactic(auto)]

ghost use Rattle.std.specs.Prelude.{◌≡◌, ◌||◌, eqb};
ghost use Rattle.words.specs.Words.{words};
ghost use Rattle.edits.specs.Allowed.{flag_differs, piece_refusal};
ghost use Rattle.places.specs.declared.Above.TheVariants.{Under};
ghost use Rattle.faults.specs.Faults.{end_of, mark_number, rename_number, same_above, stands_under};
ghost use Rattle.faults.specs.Inserting.{components_of, room_under, insert_refusal, answer_of};
ghost use Rattle.faults.specs.Reversing.{flags_fit, reverses_at};

use places::{Above, Spotted};
use refusals::Refusal;

// The place behind the extent that was found, 0 where none was.
pub fn end_of(found: Result<Spotted, Refusal>) -> usize
    ensures { result ≡ end_of found }
{
    match found {
        Ok(spot) => spot.end,
        Err(_) => 0,
    }
}

// Whether the deleted flag of word 0 is not yet as wanted.
fn flag_differs(w: usize, deleted: bool) -> bool
    ensures { result ≡ flag_differs deleted w }
{
    if deleted {
        return w / 32768 % 2 == 0;
    }
    w / 32768 % 2 == 1
}

// The number that marking an element deleted or live answers, 0 for none.
pub fn mark_fault(
    used: &[u8],
    found: Result<Spotted, Refusal>,
    place: usize,
    deleted: bool,
) -> usize
    ensures { result ≡ mark_number (words used.now) found place deleted }
{
    if found.is_err() {
        return 13;
    }
    if !flag_differs(words::word(used, place), deleted) {
        return 14;
    }
    0
}

// The number that renaming a cell answers, 0 for none; the text is a name or it is not.
pub fn rename_fault(
    used: &[u8],
    found: Result<Spotted, Refusal>,
    place: usize,
    named: bool,
) -> usize
    ensures { result ≡ rename_number (words used.now) found place named }
{
    if found.is_err() {
        return 13;
    }
    if !cells::is_cell(used, place) {
        return 18;
    }
    if !named {
        return 12;
    }
    0
}

// Whether both are the top, or the same header.
pub fn same_above(a: Above, b: Above) -> bool
    ensures { result ≡ same_above a b }
{
    match a {
        Above::Top => match b {
            Above::Top => true,
            Above::Under { place: _ } => false,
        },
        Above::Under { place: first } => match b {
            Above::Top => false,
            Above::Under { place: second } => first == second,
        },
    }
}

// Whether an element starts at a place, directly under a header or at the top, by what was found there.
fn stands_under(found: Result<Spotted, Refusal>, header: Above) -> bool
    ensures { result ≡ stands_under found header }
{
    match found {
        Ok(spot) => same_above(spot.above, header),
        Err(_) => false,
    }
}

// The components under a header, or at the top: where their list ends, their depth and the type above them.
#[derive(Clone, Copy)]
struct Components {
    end: usize,
    depth: usize,
    under: usize,
}

// The components under the header at a place.
fn components_under(used: &[u8], marker: usize, header: usize) -> Option<Components>
    ensures { result ≡ components_of (words used.now) marker (Under header) }
{
    let Ok(spot) = places::locate(used, header, marker) else {
        return None;
    };
    let under = headers::type_at(used, header);
    if !kinds::is_header(under) {
        return None;
    }
    Some(Components {
        end: spot.end,
        depth: spot.depth + 1,
        under,
    })
}

// The components under a header, or at the top.
fn components_of(used: &[u8], marker: usize, header: Above) -> Option<Components>
    ensures { result ≡ components_of (words used.now) marker header }
{
    match header {
        Above::Top => Some(Components {
            end: marker,
            depth: 0,
            under: 0,
        }),
        Above::Under { place } => components_under(used, marker, place),
    }
}

// Whether a direct component starts at a place or the list ends there.
fn gap_at(found: Result<Spotted, Refusal>, header: Above, end: usize, place: usize) -> bool
    ensures { result ≡ (stands_under found header || eqb end place) }
{
    if stands_under(found, header) {
        return true;
    }
    end == place
}

// The piece's own refusal at its new depth under its new header; words left over last.
fn piece_fault(piece: &[u8], depth: usize, under: usize, dim: usize) -> Result<(), Refusal>
    ensures { result ≡ answer_of (piece_refusal dim depth under (words piece.now)) }
{
    let size = piece.len() / 2;
    let judged = files::element(piece, 0, depth, under, dim)?;
    if judged.next == size {
        return Ok(());
    }
    Err(Refusal {
        number: 3,
        place: judged.next,
    })
}

// 8 at the outermost header around the place that would grow too large by n words.
fn room_under(used: &[u8], header: Above, n: usize) -> Result<(), Refusal>
    ensures { result ≡ answer_of (room_under used.now header n) }
{
    match header {
        Above::Top => Ok(()),
        Above::Under { place } => match totals::room_fault(used, place, n) {
            totals::Room::Fine => Ok(()),
            totals::Room::Full { place: full } => Err(Refusal {
                number: 8,
                place: full,
            }),
        },
    }
}

// The refusal of inserting a piece at a place, under a header or at the top.
pub fn insert_fault(
    used: &[u8],
    dim: usize,
    marker: usize,
    found: Result<Spotted, Refusal>,
    header: Above,
    place: usize,
    piece: &[u8],
) -> Result<(), Refusal>
    ensures { result ≡ answer_of (insert_refusal dim used.now marker found header place (words piece.now)) }
{
    let list = components_of(used, marker, header).ok_or(opening::refused(13))?;
    if !gap_at(found, header, list.end, place) {
        return Err(opening::refused(13));
    }
    piece_fault(piece, list.depth, list.under, dim)?;
    room_under(used, header, piece.len() / 2)
}

// Whether a payload is the flags of the extent that was found at a place.
fn flags_fit(used: &[u8], found: Result<Spotted, Refusal>, place: usize, payload: &[u8]) -> bool
    ensures { result ≡ flags_fit found (words used.now) place (words payload.now) }
{
    match found {
        Ok(spot) => flags::flags_ok(flags::count(used, place, spot.end), payload),
        Err(_) => false,
    }
}

// Whether the reversal of a record is allowed: its kind (1 flag, 2 rename, 3 insert, else remove), its header place, its
// place and its payload.
pub fn reversible(
    used: &[u8],
    dim: usize,
    marker: usize,
    found: Result<Spotted, Refusal>,
    kind: usize,
    header: Above,
    place: usize,
    payload: &[u8],
) -> bool
    ensures { result ≡ reverses_at dim used.now marker found kind header place (words payload.now) }
{
    if kind == 1 {
        return flags_fit(used, found, place, payload);
    }
    if kind == 2 {
        let named = names::name_ok(words::word(payload, 0), words::word(payload, 1));
        return rename_fault(used, found, place, named) == 0;
    }
    if kind == 3 {
        return stands_under(found, header);
    }
    insert_fault(used, dim, marker, found, header, place, payload).is_ok()
}
