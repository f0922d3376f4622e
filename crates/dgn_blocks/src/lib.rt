// The C interface of stored journals, as in include/dgn.h: a journal to blocks, and blocks back to a journal. No logic: each
// contract is the library's own answer, put into numbers by specs/Moves.

#![tactic(auto)]

ghost use Rattle.std.specs.Prelude.{◌≤◌, length};
ghost use Rattle.blocks.specs.Blocks.{stored, flat_of};
ghost use Rattle.blocks.specs.Calls.{to_blocks, from_blocks};
ghost use Rattle.answers.specs.Answers.{Replied, SmallReply};
ghost use Rattle.dgn_blocks.specs.Moves.{moved_reply, MovedBy};

use refusals::Refusal;

// The number of bytes; of a refusal its number and its block as one number, and nothing written.
fn put_moved(out: &mut [usize], answer: Result<usize, Refusal>) -> usize
    requires { (1 ≤ length out.old) × SmallReply (moved_reply answer) }
    ensures { Replied 1 (moved_reply answer) out.old result out.new }
{
    match answer {
        Ok(bytes) => {
            out[0] = bytes;
            0
        }
        Err(refusal) => refusal.number + 256 * refusal.place,
    }
}

#[unsafe(no_mangle)]
pub extern "C" fn dgn_journal_to_blocks(
    journal: &[u8],
    buffer: &mut [u8],
    out: &mut [usize],
) -> usize
    ensures { MovedBy (to_blocks journal.now (length buffer.old)) (stored journal.now) buffer.old out.old result buffer.new out.new }
{
    if out.len() < 1 {
        return 1;
    }
    let answer = blocks::to_blocks(journal, buffer);
    put_moved(out, answer)
}

#[unsafe(no_mangle)]
pub extern "C" fn dgn_journal_from_blocks(
    stored: &[u8],
    journal: &mut [u8],
    out: &mut [usize],
) -> usize
    ensures { MovedBy (from_blocks stored.now (length journal.old)) (flat_of stored.now) journal.old out.old result journal.new out.new }
{
    if out.len() < 1 {
        return 1;
    }
    let answer = blocks::from_blocks(stored, journal);
    put_moved(out, answer)
}
