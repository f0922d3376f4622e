// The C interface of a session, as in include/dgn.h: undoing. No logic: what the call is handed and leaves is in
// edit_answers' specs/Editing.

#![tactic(auto)]

ghost use Rattle.edits.specs.Calls.{undo_call};
ghost use Rattle.opening.specs.Opening.{session_of};
ghost use Rattle.edit_answers.specs.Editing.{StepLeft};

#[unsafe(no_mangle)]
pub extern "C" fn dgn_undo(
    file: &mut [u8],
    used: usize,
    journal: &[u8],
    jused: usize,
    dim: usize,
    out: &mut [usize],
) -> usize
    ensures { StepLeft dim (session_of file.old used journal.now jused) undo_call out.old result file.new journal.now out.new }
{
    if out.len() < 2 {
        return 1;
    }
    let answer = undoing::undo(file, used, journal, jused, dim);
    edit_answers::put_edited(out, answer)
}
