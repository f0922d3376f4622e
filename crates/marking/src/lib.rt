// Marking the elements of an extent deleted or live, and renaming a cell: calls of a session on its two lent buffers. Each
// opens the session (1, the file's own refusals, 1 for an early marker) and so finds its place, then its own refusals and 16,
// and changes the buffers last. Contracts: one step of edits' specs/Calls.

#![tactic(auto)]

ghost use Rattle.edits.specs.Calls.{mark_call, rename_call};
ghost use Rattle.opening.specs.Opening.{session_of};
ghost use Rattle.opening.specs.Steps.{Leaves, Stepped, Open};
ghost use Rattle.marking.specs.Marking.{cell_renamed};

use edits::UsedLengths;
use journals::TOP;
use places::Spotted;
use refusals::Refusal;

// Marks the extent at a place deleted, or live, in an open session: its old flags are packed behind the journal while it
// is marked, and the record's six words go behind them.
fn mark_opened(
    file: &mut [u8],
    used: usize,
    journal: &mut [u8],
    jused: usize,
    dim: usize,
    place: usize,
    found: Result<Spotted, Refusal>,
    deleted: bool,
) -> Result<UsedLengths, Refusal>
    requires { Open dim file.old used journal.old jused place found }
    ensures { Stepped dim (session_of file.old used journal.old jused) (mark_call place deleted) result file.new journal.new }
{
    let number = faults::mark_fault(&file[..used], found, place, deleted);
    if number != 0 {
        return Err(opening::refused(number));
    }
    let end = faults::end_of(found);
    let n = flags::flag_size(flags::count(&file[..used], place, end));
    if journal.len() - jused < 2 * n + 12 {
        return Err(opening::refused(16));
    }
    flags::mark(
        &mut file[..used],
        place,
        end,
        deleted,
        &mut journal[jused..],
    );
    journals::put_six(journal, jused + 2 * n, 1, TOP, place, n);
    Ok(UsedLengths {
        used,
        jused: jused + 2 * n + 12,
    })
}

// Marks the elements of the extent at a place deleted, or live.
pub fn mark(
    file: &mut [u8],
    used: usize,
    journal: &mut [u8],
    jused: usize,
    dim: usize,
    place: usize,
    deleted: bool,
) -> Result<UsedLengths, Refusal>
    ensures { Stepped dim (session_of file.old used journal.old jused) (mark_call place deleted) result file.new journal.new }
{
    let opened = opening::open_at(file, used, journal.len(), jused, dim, place)?;
    mark_opened(
        file,
        used,
        journal,
        jused,
        dim,
        place,
        opened.found,
        deleted,
    )
}

// Renames the cell at a place in an open session, by the two words of a text; `named` is false where it is no name.
fn rename_opened(
    file: &mut [u8],
    used: usize,
    journal: &mut [u8],
    jused: usize,
    dim: usize,
    place: usize,
    found: Result<Spotted, Refusal>,
    named: bool,
    first: u16,
    second: u16,
) -> Result<UsedLengths, Refusal>
    requires { Open dim file.old used journal.old jused place found }
    ensures { Leaves (cell_renamed dim (session_of file.old used journal.old jused) place named first second) result file.new journal.new }
{
    let number = faults::rename_fault(&file[..used], found, place, named);
    if number != 0 {
        return Err(opening::refused(number));
    }
    if journal.len() - jused < 16 {
        return Err(opening::refused(16));
    }
    let old = changes::cell_name(&file[..used], place);
    journals::push(journal, jused, 2, TOP, place, &old);
    changes::rename_cell(&mut file[..used], place, first, second);
    Ok(UsedLengths {
        used,
        jused: jused + 16,
    })
}

// Renames the cell at a place in an open session, by a text.
fn rename_by(
    file: &mut [u8],
    used: usize,
    journal: &mut [u8],
    jused: usize,
    dim: usize,
    place: usize,
    found: Result<Spotted, Refusal>,
    text: &[u8],
) -> Result<UsedLengths, Refusal>
    requires { Open dim file.old used journal.old jused place found }
    ensures { Stepped dim (session_of file.old used journal.old jused) (rename_call place text.now) result file.new journal.new }
{
    match names::pack(text) {
        Ok(name) => rename_opened(
            file,
            used,
            journal,
            jused,
            dim,
            place,
            found,
            true,
            name.first as u16,
            name.second as u16,
        ),
        Err(_) => rename_opened(file, used, journal, jused, dim, place, found, false, 0, 0),
    }
}

// Renames the type 1 or 2 cell at a place.
pub fn rename(
    file: &mut [u8],
    used: usize,
    journal: &mut [u8],
    jused: usize,
    dim: usize,
    place: usize,
    text: &[u8],
) -> Result<UsedLengths, Refusal>
    ensures { Stepped dim (session_of file.old used journal.old jused) (rename_call place text.now) result file.new journal.new }
{
    let opened = opening::open_at(file, used, journal.len(), jused, dim, place)?;
    rename_by(file, used, journal, jused, dim, place, opened.found, text)
}
