// The calls of a session that are lent an index beside file and journal. Each counts the cells that the file will have, by sizes
// alone, and so knows whether their index will fit; then it makes the call without an index, and at last builds the index of
// the file as it is now. Where the index will not fit, an edit is lent the used part of the journal alone: no record fits
// there, so nothing changes, its own refusals are told, and 16 stands for 15. Contracts: one step of edits' specs/Calls.

#![tactic(auto)]

ghost use Rattle.std.specs.Prelude.{◌≡◌, cond, not, ◌&&◌, ◌+◌, ◌-◌, ◌*◌, ◌/◌, ◌≤◌, length, leb, ltb};
ghost use Rattle.words.specs.Words.{words};
ghost use Rattle.limits.specs.Limits.{used_ok};
ghost use Rattle.headers.specs.Header.{extent_words};
ghost use Rattle.entries.specs.Entries.{entries_ok};
ghost use Rattle.cells.specs.Cells.{cells_between};
ghost use Rattle.edits.specs.Calls.{mark_call, rename_call, insert_call, remove_call, undo_call, used_words};
ghost use Rattle.opening.specs.Opening.{header_of};
ghost use Rattle.opening.specs.Steps.{last_place};
ghost use Rattle.indexed.specs.Indexed.{SteppedWith};
ghost use Rattle.indexed.specs.Parts.{lent_ok, cells_used, cells_under, MayCount, CellsBack, told_number, Finishable, Finished};

use edits::UsedLengths;
use journals::Last;
use places::Above;
use refusals::Refusal;

// The used lengths of file, journal and index after a call that is made.
#[derive(Clone, Copy)]
pub struct AllLengths {
    pub used: usize,
    pub jused: usize,
    pub iused: usize,
}

// Whether the used lengths of the three buffers are right.
fn lent_ok(
    file_len: usize,
    used: usize,
    journal_len: usize,
    jused: usize,
    index_len: usize,
    iused: usize,
) -> bool
    ensures { result ≡ lent_ok file_len used journal_len jused index_len iused }
{
    if !limits::used_ok(file_len, used) {
        return false;
    }
    if !limits::used_ok(journal_len, jused) {
        return false;
    }
    entries::entries_ok(index_len, iused)
}

// The place of the last of so many bytes' words.
fn last_place(used: usize) -> usize
    ensures { result ≡ used / 2 - 1 }
{
    if used < 2 {
        return 0;
    }
    used / 2 - 1
}

// The cells of the used file.
fn cells_used(file: &[u8], used: usize) -> usize
    requires { used ≤ length file.now }
    ensures { result ≡ cells_used file.now used }
{
    cells::count_cells(&file[..used], 0, last_place(used))
}

// The cells of the extent at a place of the used file, none where the place is beyond it.
fn cells_under(file: &[u8], used: usize, place: usize) -> usize
    requires { used ≤ length file.now }
    ensures { result ≡ cells_under file.now used place }
{
    if place < used / 2 {
        let n = headers::extent_words(&file[..used], place);
        return cells::count_cells(&file[..used], place, place + n);
    }
    0
}

// The cells after an undo, by the last record of the journal.
fn cells_back(file: &[u8], used: usize, journal: &[u8], jused: usize) -> usize
    requires { MayCount file.now used journal.now jused }
    ensures { CellsBack file.now used journal.now jused result }
{
    let n = cells_used(file, used);
    match undoing::record_by(journal, jused) {
        None | Some(Last::Flag { .. } | Last::Renamed { .. }) => n,
        Some(Last::Inserted { place, .. }) => { n.saturating_sub(cells_under(file, used, place)) }
        Some(Last::Removed { count, before, .. }) => {
            n + cells::count_cells(&journal[before..before + 2 * count], 0, count)
        }
    }
}

// Whether the index of so many cells does not fit a buffer of so many bytes.
fn is_full(index_len: usize, cells: usize) -> bool
    ensures { result ≡ not (leb (8 * cells) index_len) }
{
    index_len / 8 < cells
}

// A refusal's number: of an edit whose index is full 15 for 16.
fn told(number: usize, full: bool) -> usize
    ensures { result ≡ told_number full number }
{
    if full {
        return kinds::pick(number == 16, 15, number);
    }
    number
}

// The answer of the call, and the index of the file as it is now where it was made.
fn finish(
    answer: Result<UsedLengths, Refusal>,
    full: bool,
    file: &[u8],
    index: &mut [u8],
) -> Result<AllLengths, Refusal>
    requires { Finishable answer (length file.now) }
    ensures { Finished answer full file.now index.old result index.new }
{
    match answer {
        Err(refusal) => Err(Refusal {
            number: told(refusal.number, full),
            place: refusal.place,
        }),
        Ok(lengths) => {
            let used = lengths.used;
            let iused = indexing::put_index(&file[..used], last_place(used), index).ok_or(
                Refusal {
                    number: 15,
                    place: 0,
                },
            )?;
            Ok(AllLengths {
                used,
                jused: lengths.jused,
                iused,
            })
        }
    }
}

// Marks the elements of the extent at a place deleted, or live.
pub fn mark(
    file: &mut [u8],
    used: usize,
    journal: &mut [u8],
    jused: usize,
    index: &mut [u8],
    iused: usize,
    dim: usize,
    place: usize,
    deleted: bool,
) -> Result<AllLengths, Refusal>
    ensures { SteppedWith dim file.old used journal.old jused index.old iused (mark_call place deleted) result file.new journal.new index.new }
{
    if !lent_ok(file.len(), used, journal.len(), jused, index.len(), iused) {
        return Err(Refusal {
            number: 1,
            place: 0,
        });
    }
    let full = is_full(index.len(), cells_used(file, used));
    let room = kinds::pick(full, jused, journal.len());
    let answer = marking::mark(file, used, &mut journal[..room], jused, dim, place, deleted);
    finish(answer, full, file, index)
}

// Renames the type 1 or 2 cell at a place.
pub fn rename(
    file: &mut [u8],
    used: usize,
    journal: &mut [u8],
    jused: usize,
    index: &mut [u8],
    iused: usize,
    dim: usize,
    place: usize,
    text: &[u8],
) -> Result<AllLengths, Refusal>
    ensures { SteppedWith dim file.old used journal.old jused index.old iused (rename_call place text.now) result file.new journal.new index.new }
{
    if !lent_ok(file.len(), used, journal.len(), jused, index.len(), iused) {
        return Err(Refusal {
            number: 1,
            place: 0,
        });
    }
    let full = is_full(index.len(), cells_used(file, used));
    let room = kinds::pick(full, jused, journal.len());
    let answer = marking::rename(file, used, &mut journal[..room], jused, dim, place, text);
    finish(answer, full, file, index)
}

// Inserts a piece, one whole extent, under a header or at the top.
pub fn insert(
    file: &mut [u8],
    used: usize,
    journal: &mut [u8],
    jused: usize,
    index: &mut [u8],
    iused: usize,
    dim: usize,
    header: Above,
    place: usize,
    piece: &[u8],
) -> Result<AllLengths, Refusal>
    ensures { SteppedWith dim file.old used journal.old jused index.old iused (insert_call (header_of header) place piece.now) result file.new journal.new index.new }
{
    if !lent_ok(file.len(), used, journal.len(), jused, index.len(), iused) {
        return Err(Refusal {
            number: 1,
            place: 0,
        });
    }
    let more = cells::count_cells(piece, 0, piece.len() / 2);
    let full = is_full(index.len(), cells_used(file, used) + more);
    let room = kinds::pick(full, jused, journal.len());
    let answer = moving::insert(
        file,
        used,
        &mut journal[..room],
        jused,
        dim,
        header,
        place,
        piece,
    );
    finish(answer, full, file, index)
}

// Removes the element at a place with its extent.
pub fn remove(
    file: &mut [u8],
    used: usize,
    journal: &mut [u8],
    jused: usize,
    index: &mut [u8],
    iused: usize,
    dim: usize,
    place: usize,
) -> Result<AllLengths, Refusal>
    ensures { SteppedWith dim file.old used journal.old jused index.old iused (remove_call place) result file.new journal.new index.new }
{
    if !lent_ok(file.len(), used, journal.len(), jused, index.len(), iused) {
        return Err(Refusal {
            number: 1,
            place: 0,
        });
    }
    let fewer = cells_used(file, used).saturating_sub(cells_under(file, used, place));
    let full = is_full(index.len(), fewer);
    let room = kinds::pick(full, jused, journal.len());
    let answer = moving::remove(file, used, &mut journal[..room], jused, dim, place);
    finish(answer, full, file, index)
}

// Undoes the last edit: its record is taken off the journal, whose bytes stay, and reversed.
pub fn undo(
    file: &mut [u8],
    used: usize,
    journal: &[u8],
    jused: usize,
    index: &mut [u8],
    iused: usize,
    dim: usize,
) -> Result<AllLengths, Refusal>
    ensures { SteppedWith dim file.old used journal.now jused index.old iused undo_call result file.new journal.now index.new }
{
    if !lent_ok(file.len(), used, journal.len(), jused, index.len(), iused) {
        return Err(Refusal {
            number: 1,
            place: 0,
        });
    }
    let full = is_full(index.len(), cells_back(file, used, journal, jused));
    let answer = undoing::undo_within(file, used, journal, jused, dim, full);
    finish(answer, false, file, index)
}
