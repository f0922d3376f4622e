// The C interface of cells and an index of them, as in include/dgn.h: the cells of a file in file order, the index of a file, and
// looking a name up in one. No logic: each contract is the library's own equation, put into numbers by specs/IndexNumbers.

#![tactic(auto)]

ghost use Rattle.std.specs.Prelude.{◌≤◌, length};
ghost use Rattle.lookup.specs.LookUp.{look_up_of};
ghost use Rattle.lookup.specs.Live.{live_look_up_of};
ghost use Rattle.answers.specs.Answers.{SmallReply, Replied};
ghost use Rattle.dgn_index.specs.IndexNumbers.{CellsLeft, IndexLeft, look_reply};

use finder::{Found, Missed};

#[unsafe(no_mangle)]
pub extern "C" fn dgn_cells(file: &[u8], dim: usize, entries: &mut [u8], out: &mut [usize]) -> usize
    ensures { CellsLeft dim file.now entries.old out.old result entries.new out.new }
{
    if out.len() < 4 {
        return 1;
    }
    match files::judge(file, dim) {
        Ok(accepted) => {
            let n = indexing::list_cells(file, accepted.marker, entries);
            out[0] = n;
            out[1] = accepted.elements;
            out[2] = accepted.deepest;
            out[3] = accepted.marker;
            0
        }
        Err(refusal) => refusal.number + 256 * refusal.place,
    }
}

#[unsafe(no_mangle)]
pub extern "C" fn dgn_index(file: &[u8], dim: usize, index: &mut [u8], out: &mut [usize]) -> usize
    ensures { IndexLeft dim file.now index.old out.old result index.new out.new }
{
    if out.len() < 1 {
        return 1;
    }
    match indexing::build(file, dim, index) {
        Ok(used) => {
            out[0] = used;
            0
        }
        Err(refusal) => refusal.number + 256 * refusal.place,
    }
}

// What a look-up answers, put into a slice that has room for it. 13 carries the looks, or 524,288 where there were more.
fn put_looked(found: Result<Found, Missed>, out: &mut [usize]) -> usize
    requires { (SmallReply (look_reply found)) × (2 ≤ length out.old) }
    ensures { Replied 2 (look_reply found) out.old result out.new }
{
    match found {
        Ok(Found { place, looks }) => {
            out[0] = place;
            out[1] = looks;
            0
        }
        Err(Missed { refusal, looks }) => {
            let most = kinds::pick(looks < 524288, looks, 524288);
            refusal.number + 256 * kinds::pick(refusal.number == 13, most, refusal.place)
        }
    }
}

#[unsafe(no_mangle)]
pub extern "C" fn dgn_look_up(
    file: &[u8],
    dim: usize,
    index: &[u8],
    used: usize,
    text: &[u8],
    out: &mut [usize],
) -> usize
    ensures { Replied 2 (look_reply (live_look_up_of dim file.now index.now used text.now)) out.old result out.new }
{
    if out.len() < 2 {
        return 1;
    }
    put_looked(lookup::look_up(file, dim, index, used, text), out)
}

#[unsafe(no_mangle)]
pub extern "C" fn dgn_look_up_with_deleted(
    index: &[u8],
    used: usize,
    text: &[u8],
    out: &mut [usize],
) -> usize
    ensures { Replied 2 (look_reply (look_up_of index.now used text.now)) out.old result out.new }
{
    if out.len() < 2 {
        return 1;
    }
    put_looked(lookup::look_up_with_deleted(index, used, text), out)
}
