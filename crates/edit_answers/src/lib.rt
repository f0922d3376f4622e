// What the C interface's calls of a session have in common: their answer as numbers. What they are handed and leave is
// in specs/Editing, the laws of it in proofs/Sessions; proofs/Results: a lent index stays; proofs/Places: the place of each
// refusal fits.

#![tactic(auto)]

ghost use Rattle.std.specs.Prelude.{◌≡◌};
ghost use Rattle.std.proofs.Math.Option.{none, some};
ghost use Rattle.answers.specs.Answers.{Replied};
ghost use Rattle.opening.specs.Opening.{header_of};
ghost use Rattle.edit_answers.specs.Editing.{cut_reply, header_given};

use edits::UsedLengths;
use places::Above;
use refusals::Refusal;

// The new used lengths; of a refusal its number and place as one number, and nothing written. 1 where the slice is too
// short.
pub fn put_edited(out: &mut [usize], answer: Result<UsedLengths, Refusal>) -> usize
    ensures { Replied 2 (cut_reply answer none) out.old result out.new }
{
    if out.len() < 2 {
        return 1;
    }
    match answer {
        Ok(lengths) => {
            out[0] = lengths.used;
            out[1] = lengths.jused;
            0
        }
        Err(refusal) => refusal.number % 256 + 256 * (refusal.place % 72057594037927936),
    }
}

// The same with an index: its used length behind the two.
pub fn put_indexed(out: &mut [usize], answer: Result<UsedLengths, Refusal>, iused: usize) -> usize
    ensures { Replied 3 (cut_reply answer (some iused)) out.old result out.new }
{
    if out.len() < 3 {
        return 1;
    }
    let returned = put_edited(out, answer);
    if answer.is_ok() {
        out[2] = iused;
    }
    returned
}

// The top, as a header's place.
const TOP: usize = 18446744073709551615;

// The header by its number.
pub fn header_given(header: usize) -> Above
    ensures { header_of result ≡ header_given header }
{
    if header == TOP {
        return Above::Top;
    }
    Above::Under { place: header }
}
