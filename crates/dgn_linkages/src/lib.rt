// The C interface of an element's linkages, as in include/dgn.h. No logic: the contract is the library's own equation,
// put into numbers by specs/LinkageNumbers.

#![tactic(auto)]

ghost use Rattle.points_linkages.specs.Linkages.{linkage_of};
ghost use Rattle.answers.specs.Answers.{Replied};
ghost use Rattle.dgn_linkages.specs.LinkageNumbers.{linkage_reply};

#[unsafe(no_mangle)]
pub extern "C" fn dgn_linkage(
    file: &[u8],
    dim: usize,
    place: usize,
    k: usize,
    out: &mut [usize],
) -> usize
    ensures { Replied 4 (linkage_reply (linkage_of dim file.now place k)) out.old result out.new }
{
    if out.len() < 4 {
        return 1;
    }
    match points_linkages::linkage_at(file, dim, place, k) {
        Ok(linkage) => {
            let kind = kinds::pick(linkage.user, 1, 0);
            out[0] = kind;
            out[1] = linkage.place;
            out[2] = linkage.size;
            out[3] = linkage.id;
            0
        }
        Err(refusal) => refusal.number + 256 * refusal.place,
    }
}
