// The C interface of a session, as in include/dgn.h: marking and renaming. No logic: what the calls are handed and leave
// is in edit_answers' specs/Editing.

#![tactic(auto)]

ghost use Rattle.edits.specs.Calls.{rename_call};
ghost use Rattle.opening.specs.Opening.{session_of};
ghost use Rattle.edit_answers.specs.Editing.{StepLeft, MarkLeft};

#[unsafe(no_mangle)]
pub extern "C" fn dgn_mark(
    file: &mut [u8],
    used: usize,
    journal: &mut [u8],
    jused: usize,
    dim: usize,
    place: usize,
    deleted: usize,
    out: &mut [usize],
) -> usize
    ensures { MarkLeft dim (session_of file.old used journal.old jused) place deleted out.old result file.new journal.new out.new }
{
    if out.len() < 2 {
        return 1;
    }
    if 1 < deleted {
        return 1;
    }
    let answer = marking::mark(file, used, journal, jused, dim, place, deleted == 1);
    edit_answers::put_edited(out, answer)
}

#[unsafe(no_mangle)]
pub extern "C" fn dgn_rename(
    file: &mut [u8],
    used: usize,
    journal: &mut [u8],
    jused: usize,
    dim: usize,
    place: usize,
    text: &[u8],
    out: &mut [usize],
) -> usize
    ensures { StepLeft dim (session_of file.old used journal.old jused) (rename_call place text.now) out.old result file.new journal.new out.new }
{
    if out.len() < 2 {
        return 1;
    }
    let answer = marking::rename(file, used, journal, jused, dim, place, text);
    edit_answers::put_edited(out, answer)
}
