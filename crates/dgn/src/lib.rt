// The C interface of a file, as in include/dgn.h: judging it and finding a cell. No logic: each contract is the library's
// own equation, put into numbers by specs/JudgeFind. The other functions of the header are in the crates whose names
// begin with dgn_.

#![tactic(auto)]

ghost use Rattle.std.specs.Prelude.{◌≤◌, length};
ghost use Rattle.files.specs.Judge.{judge_of};
ghost use Rattle.finder.specs.declared.Wanted.TheVariants.{Live, WithDeleted};
ghost use Rattle.finder.specs.Finder.{find_of};
ghost use Rattle.answers.specs.Answers.{SmallReply, Replied};
ghost use Rattle.dgn.specs.JudgeFind.{judge_reply, find_reply};

use finder::{Found, Missed};

#[unsafe(no_mangle)]
pub extern "C" fn dgn_judge(file: &[u8], dim: usize, out: &mut [usize]) -> usize
    ensures { Replied 3 (judge_reply (judge_of dim file.now)) out.old result out.new }
{
    if out.len() < 3 {
        return 1;
    }
    match files::judge(file, dim) {
        Ok(accepted) => {
            out[0] = accepted.elements;
            out[1] = accepted.deepest;
            out[2] = accepted.marker;
            0
        }
        Err(refusal) => refusal.number + 256 * refusal.place,
    }
}

// What the finder answers, put into a slice that has room for it.
fn put_found(found: Result<Found, Missed>, out: &mut [usize]) -> usize
    requires { (SmallReply (find_reply found)) × (2 ≤ length out.old) }
    ensures { Replied 2 (find_reply found) out.old result out.new }
{
    match found {
        Ok(Found { place, looks }) => {
            out[0] = place;
            out[1] = looks;
            0
        }
        Err(Missed { refusal, looks }) => {
            refusal.number + 256 * kinds::pick(refusal.number == 13, looks, refusal.place)
        }
    }
}

#[unsafe(no_mangle)]
pub extern "C" fn dgn_find(file: &[u8], dim: usize, text: &[u8], out: &mut [usize]) -> usize
    ensures { Replied 2 (find_reply (find_of Live dim file.now text.now)) out.old result out.new }
{
    if out.len() < 2 {
        return 1;
    }
    put_found(finder::find(file, dim, text), out)
}

#[unsafe(no_mangle)]
pub extern "C" fn dgn_find_with_deleted(
    file: &[u8],
    dim: usize,
    text: &[u8],
    out: &mut [usize],
) -> usize
    ensures { Replied 2 (find_reply (find_of WithDeleted dim file.now text.now)) out.old result out.new }
{
    if out.len() < 2 {
        return 1;
    }
    put_found(finder::find_with_deleted(file, dim, text), out)
}
