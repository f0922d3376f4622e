// The C interface of a session with an index, as in include/dgn.h: the five calls that are lent it. No logic: what the calls are
// handed and leave is in edit_answers' specs/Editing.

#![tactic(auto)]

ghost use Rattle.std.proofs.Math.Option.{some};
ghost use Rattle.answers.specs.Answers.{Replied};
ghost use Rattle.edits.specs.Calls.{rename_call, insert_call, remove_call, undo_call};
ghost use Rattle.edit_answers.specs.Editing.{cut_reply, StepLeftAll, MarkLeftAll, header_given};
ghost use Rattle.indexed.specs.Indexed.{session_indexed, edited_of, iused_then};

use edits::UsedLengths;
use indexed::AllLengths;
use refusals::Refusal;

// The new used lengths, the index's last; where the call is refused its used length stays.
fn put(out: &mut [usize], answer: Result<AllLengths, Refusal>, iused: usize) -> usize
    ensures { Replied 3 (cut_reply (edited_of answer) (some (iused_then answer iused))) out.old result out.new }
{
    match answer {
        Ok(lengths) => {
            let used = lengths.used;
            let jused = lengths.jused;
            edit_answers::put_indexed(out, Ok(UsedLengths { used, jused }), lengths.iused)
        }
        Err(refusal) => edit_answers::put_indexed(out, Err(refusal), iused),
    }
}

#[unsafe(no_mangle)]
pub extern "C" fn dgn_mark_indexed(
    file: &mut [u8],
    used: usize,
    journal: &mut [u8],
    jused: usize,
    index: &mut [u8],
    iused: usize,
    dim: usize,
    place: usize,
    deleted: usize,
    out: &mut [usize],
) -> usize
    ensures { MarkLeftAll dim (session_indexed file.old used journal.old jused index.old iused) place deleted out.old result file.new journal.new (some index.new) out.new }
{
    if out.len() < 3 {
        return 1;
    }
    if 1 < deleted {
        return 1;
    }
    let answer = indexed::mark(
        file,
        used,
        journal,
        jused,
        index,
        iused,
        dim,
        place,
        deleted == 1,
    );
    put(out, answer, iused)
}

#[unsafe(no_mangle)]
pub extern "C" fn dgn_rename_indexed(
    file: &mut [u8],
    used: usize,
    journal: &mut [u8],
    jused: usize,
    index: &mut [u8],
    iused: usize,
    dim: usize,
    place: usize,
    text: &[u8],
    out: &mut [usize],
) -> usize
    ensures { StepLeftAll dim (session_indexed file.old used journal.old jused index.old iused) (rename_call place text.now) out.old result file.new journal.new (some index.new) out.new }
{
    if out.len() < 3 {
        return 1;
    }
    let answer = indexed::rename(file, used, journal, jused, index, iused, dim, place, text);
    put(out, answer, iused)
}

#[unsafe(no_mangle)]
pub extern "C" fn dgn_insert_indexed(
    file: &mut [u8],
    used: usize,
    journal: &mut [u8],
    jused: usize,
    index: &mut [u8],
    iused: usize,
    dim: usize,
    header: usize,
    place: usize,
    piece: &[u8],
    out: &mut [usize],
) -> usize
    ensures { StepLeftAll dim (session_indexed file.old used journal.old jused index.old iused) (insert_call (header_given header) place piece.now) out.old result file.new journal.new (some index.new) out.new }
{
    if out.len() < 3 {
        return 1;
    }
    let above = edit_answers::header_given(header);
    let answer = indexed::insert(
        file, used, journal, jused, index, iused, dim, above, place, piece,
    );
    put(out, answer, iused)
}

#[unsafe(no_mangle)]
pub extern "C" fn dgn_remove_indexed(
    file: &mut [u8],
    used: usize,
    journal: &mut [u8],
    jused: usize,
    index: &mut [u8],
    iused: usize,
    dim: usize,
    place: usize,
    out: &mut [usize],
) -> usize
    ensures { StepLeftAll dim (session_indexed file.old used journal.old jused index.old iused) (remove_call place) out.old result file.new journal.new (some index.new) out.new }
{
    if out.len() < 3 {
        return 1;
    }
    let answer = indexed::remove(file, used, journal, jused, index, iused, dim, place);
    put(out, answer, iused)
}

#[unsafe(no_mangle)]
pub extern "C" fn dgn_undo_indexed(
    file: &mut [u8],
    used: usize,
    journal: &[u8],
    jused: usize,
    index: &mut [u8],
    iused: usize,
    dim: usize,
    out: &mut [usize],
) -> usize
    ensures { StepLeftAll dim (session_indexed file.old used journal.now jused index.old iused) undo_call out.old result file.new journal.now (some index.new) out.new }
{
    if out.len() < 3 {
        return 1;
    }
    let answer = indexed::undo(file, used, journal, jused, index, iused, dim);
    put(out, answer, iused)
}
