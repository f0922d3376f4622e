// The C interface of a session, as in include/dgn.h: inserting and removing. No logic: what the calls are handed and
// leave is in edit_answers' specs/Editing.

#![tactic(auto)]

ghost use Rattle.edits.specs.Calls.{insert_call, remove_call};
ghost use Rattle.opening.specs.Opening.{session_of};
ghost use Rattle.edit_answers.specs.Editing.{StepLeft, header_given};

#[unsafe(no_mangle)]
pub extern "C" fn dgn_insert(
    file: &mut [u8],
    used: usize,
    journal: &mut [u8],
    jused: usize,
    dim: usize,
    header: usize,
    place: usize,
    piece: &[u8],
    out: &mut [usize],
) -> usize
    ensures { StepLeft dim (session_of file.old used journal.old jused) (insert_call (header_given header) place piece.now) out.old result file.new journal.new out.new }
{
    if out.len() < 2 {
        return 1;
    }
    let above = edit_answers::header_given(header);
    let answer = moving::insert(file, used, journal, jused, dim, above, place, piece);
    edit_answers::put_edited(out, answer)
}

#[unsafe(no_mangle)]
pub extern "C" fn dgn_remove(
    file: &mut [u8],
    used: usize,
    journal: &mut [u8],
    jused: usize,
    dim: usize,
    place: usize,
    out: &mut [usize],
) -> usize
    ensures { StepLeft dim (session_of file.old used journal.old jused) (remove_call place) out.old result file.new journal.new out.new }
{
    if out.len() < 2 {
        return 1;
    }
    let answer = moving::remove(file, used, journal, jused, dim, place);
    edit_answers::put_edited(out, answer)
}
