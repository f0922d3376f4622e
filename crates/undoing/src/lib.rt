// Undoing the last edit of a session on its two lent buffers: the record is read, the session is opened (1, the file's own
// refusals, 1 for an early marker) and so the record's place is found, then 17, 19 and 15, and the file is changed last.
// Contract: one step of edits' specs/Calls. Whether the index of the file after it would not fit is told by the caller, `full`:
// false where no index is lent.

#![tactic(auto)]

ghost use Rattle.std.specs.Prelude.{◌≡◌, ◌%◌, ◌≤◌, length, take};
ghost use Rattle.words.specs.Words.{words};
ghost use Rattle.edits.specs.Records.{flag, renamed, inserted, removed, place_of};
ghost use Rattle.edits.specs.Calls.{undo_call};
ghost use Rattle.journals.specs.Journals.{LastRead};
ghost use Rattle.opening.specs.Opening.{session_of};
ghost use Rattle.opening.specs.Steps.{Leaves, Stepped, last_place, Open};
ghost use Rattle.undoing.specs.Undoing.{OpenFile, RecordBy, place_in, back_number, Reversed, undo_told};

use edits::UsedLengths;
use journals::Last;
use places::{Above, Spotted};
use refusals::Refusal;

// The number that a reversal is refused by, 0 for none: 19 where it is not allowed, then 15 where the index is full.
fn back_fault(reverses: bool, full: bool) -> usize
    ensures { result ≡ back_number reverses full }
{
    if !reverses {
        return 19;
    }
    if full {
        return 15;
    }
    0
}

// Writes the old flags back over those of the extent at a place, whatever they are.
fn undo_flag(
    file: &mut [u8],
    used: usize,
    dim: usize,
    marker: usize,
    place: usize,
    found: Result<Spotted, Refusal>,
    old: &[u8],
    before: usize,
    full: bool,
) -> Result<UsedLengths, Refusal>
    requires open_file { OpenFile dim file.old used place found }
    requires marker_value { marker ≡ last_place file.old used }
    ensures { Reversed dim file.old used (flag place (words old.now)) full before result file.new }
{
    let reverses = faults::reversible(&file[..used], dim, marker, found, 1, Above::Top, place, old);
    let number = back_fault(reverses, full);
    if number != 0 {
        return Err(opening::refused(number));
    }
    flags::restore(&mut file[..used], place, faults::end_of(found), old);
    Ok(UsedLengths {
        used,
        jused: before,
    })
}

// Writes the old name back over that of the cell at a place.
fn undo_renamed(
    file: &mut [u8],
    used: usize,
    dim: usize,
    marker: usize,
    place: usize,
    found: Result<Spotted, Refusal>,
    first: u16,
    second: u16,
    before: usize,
    full: bool,
) -> Result<UsedLengths, Refusal>
    requires open_file { OpenFile dim file.old used place found }
    requires marker_value { marker ≡ last_place file.old used }
    ensures { Reversed dim file.old used (renamed place first second) full before result file.new }
{
    let payload = changes::name_bytes(first, second);
    let reverses = faults::reversible(
        &file[..used],
        dim,
        marker,
        found,
        2,
        Above::Top,
        place,
        &payload,
    );
    let number = back_fault(reverses, full);
    if number != 0 {
        return Err(opening::refused(number));
    }
    changes::rename_cell(&mut file[..used], place, first, second);
    Ok(UsedLengths {
        used,
        jused: before,
    })
}

// Takes the element at a place out again.
fn undo_inserted(
    file: &mut [u8],
    used: usize,
    dim: usize,
    header: usize,
    place: usize,
    found: Result<Spotted, Refusal>,
    before: usize,
    full: bool,
) -> Result<UsedLengths, Refusal>
    requires { OpenFile dim file.old used place found }
    ensures { Reversed dim file.old used (inserted (place_of header) place) full before result file.new }
{
    let Ok(spot) = found else {
        return Err(opening::refused(19));
    };
    let reverses = faults::same_above(spot.above, opening::header_at(header));
    let number = back_fault(reverses, full);
    if number != 0 {
        return Err(opening::refused(number));
    }
    let n = spot.end - place;
    changes::remove_extent(file, used, spot.above, place, n);
    Ok(UsedLengths {
        used: used - 2 * n,
        jused: before,
    })
}

// Puts the words that were removed in again.
fn undo_removed(
    file: &mut [u8],
    used: usize,
    dim: usize,
    marker: usize,
    header: usize,
    place: usize,
    found: Result<Spotted, Refusal>,
    piece: &[u8],
    before: usize,
    full: bool,
) -> Result<UsedLengths, Refusal>
    requires open_file { OpenFile dim file.old used place found }
    requires marker_value { marker ≡ last_place file.old used }
    requires piece_len { length piece.now % 2 ≡ 0 }
    ensures { Reversed dim file.old used (removed (place_of header) place (words piece.now)) full before result file.new }
{
    let above = opening::header_at(header);
    let reverses = faults::reversible(&file[..used], dim, marker, found, 4, above, place, piece);
    let number = back_fault(reverses, full);
    if number != 0 {
        return Err(opening::refused(number));
    }
    if file.len() - used < piece.len() {
        return Err(opening::refused(15));
    }
    changes::insert_piece(file, used, above, place, piece);
    Ok(UsedLengths {
        used: used + piece.len(),
        jused: before,
    })
}

// The last record of a journal by its used length; none where that is beyond the journal, or the record is ill-formed.
pub fn record_by(journal: &[u8], jused: usize) -> Option<Last>
    ensures { RecordBy journal.now jused result }
{
    if jused <= journal.len() {
        return journals::last_record(&journal[..jused]);
    }
    None
}

// The place of a record, 0 where there is none.
fn place_in(last: Option<Last>) -> usize
    ensures { result ≡ place_in last }
{
    match last {
        None => 0,
        Some(
            Last::Flag { place, .. }
            | Last::Renamed { place, .. }
            | Last::Inserted { place, .. }
            | Last::Removed { place, .. },
        ) => place,
    }
}

// Undoes the last edit of an open session, by its record.
fn undo_opened(
    file: &mut [u8],
    used: usize,
    journal: &[u8],
    jused: usize,
    dim: usize,
    marker: usize,
    last: Option<Last>,
    found: Result<Spotted, Refusal>,
    full: bool,
) -> Result<UsedLengths, Refusal>
    requires fact { Open dim file.old used journal.now jused (place_in last) found }
    requires marker_value { marker ≡ last_place file.old used }
    requires last_read { LastRead (take jused journal.now) last }
    ensures { Leaves (undo_told dim (session_of file.old used journal.now jused) full) result file.new journal.now }
{
    if jused == 0 {
        return Err(opening::refused(17));
    }
    let record = last.ok_or(opening::refused(19))?;
    match record {
        Last::Flag {
            place,
            count,
            before,
        } => undo_flag(
            file,
            used,
            dim,
            marker,
            place,
            found,
            &journal[before..before + 2 * count],
            before,
            full,
        ),
        Last::Renamed {
            place,
            first,
            second,
            before,
        } => undo_renamed(
            file,
            used,
            dim,
            marker,
            place,
            found,
            first as u16,
            second as u16,
            before,
            full,
        ),
        Last::Inserted {
            header,
            place,
            before,
        } => undo_inserted(file, used, dim, header, place, found, before, full),
        Last::Removed {
            header,
            place,
            count,
            before,
        } => undo_removed(
            file,
            used,
            dim,
            marker,
            header,
            place,
            found,
            &journal[before..before + 2 * count],
            before,
            full,
        ),
    }
}

// Undoes the last edit, with an index or none: 15 also where the index of the file after it would not fit, which the caller tells.
// The record is read first, so that its place is found while the file is judged.
pub fn undo_within(
    file: &mut [u8],
    used: usize,
    journal: &[u8],
    jused: usize,
    dim: usize,
    full: bool,
) -> Result<UsedLengths, Refusal>
    ensures { Leaves (undo_told dim (session_of file.old used journal.now jused) full) result file.new journal.now }
{
    let last = record_by(journal, jused);
    let place = place_in(last);
    let opened = opening::open_at(file, used, journal.len(), jused, dim, place)?;
    undo_opened(
        file,
        used,
        journal,
        jused,
        dim,
        opened.marker,
        last,
        opened.found,
        full,
    )
}

// Undoes the last edit: its record is taken off the journal, whose bytes stay, and reversed.
pub fn undo(
    file: &mut [u8],
    used: usize,
    journal: &[u8],
    jused: usize,
    dim: usize,
) -> Result<UsedLengths, Refusal>
    ensures { Stepped dim (session_of file.old used journal.now jused) undo_call result file.new journal.now }
{
    undo_within(file, used, journal, jused, dim, false)
}
