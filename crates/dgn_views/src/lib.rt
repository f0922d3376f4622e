// The C interface of an element's view, as in include/dgn.h. No logic: the contract is the library's own equation, put
// into numbers by specs/Views.

#![tactic(auto)]

ghost use Rattle.views.specs.Views.{view_of};
ghost use Rattle.answers.specs.Answers.{Replied};
ghost use Rattle.dgn_views.specs.Views.{view_reply};

#[unsafe(no_mangle)]
pub extern "C" fn dgn_view(file: &[u8], dim: usize, place: usize, out: &mut [i64]) -> usize
    ensures { Replied 32 (view_reply place (view_of dim file.now place)) out.old result out.new }
{
    if out.len() < 32 {
        return 1;
    }
    match views::view_at(file, dim, place) {
        Ok(element) => {
            view_numbers::put_view(out, 0, place, element);
            0
        }
        Err(refusal) => refusal.number + 256 * refusal.place,
    }
}
