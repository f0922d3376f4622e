// The C interface of a journal's last record, as in include/dgn.h: what a host needs to show a history, newest first. No
// logic: the contract is the definition of edits' specs/Records, put into numbers by specs/LastRecord.

#![tactic(auto)]

ghost use Rattle.std.specs.Prelude.{◌≡◌, [], ◌∷◌, ◌≤◌, length, Some};
ghost use Rattle.edits.specs.Records.{place_of};
ghost use Rattle.answers.specs.Answers.{done, Replied};
ghost use Rattle.dgn_record.specs.LastRecord.{header_number, record_reply, last_reply};

use journals::Last;

// The top, as a header's place.
const TOP: usize = 18446744073709551615;

// A header's place by the number of its long.
fn header_number(long: usize) -> usize
    ensures { result ≡ header_number (place_of long) }
{
    if long == journals::TOP {
        return TOP;
    }
    long
}

// Five numbers at the front of the slice.
fn put_five(
    out: &mut [usize],
    kind: usize,
    header: usize,
    place: usize,
    count: usize,
    before: usize,
) -> usize
    requires { 5 ≤ length out.old }
    ensures { Replied 5 (done (kind ∷ header ∷ place ∷ count ∷ before ∷ [])) out.old result out.new }
{
    out[0] = kind;
    out[1] = header;
    out[2] = place;
    out[3] = count;
    out[4] = before;
    0
}

// The numbers of a record that was read.
fn put_last(out: &mut [usize], last: Last) -> usize
    requires { 5 ≤ length out.old }
    ensures { Replied 5 (last_reply (Some last)) out.old result out.new }
{
    match last {
        Last::Flag {
            place,
            count,
            before,
        } => put_five(out, 1, TOP, place, count, before),
        Last::Renamed { place, before, .. } => put_five(out, 2, TOP, place, 2, before),
        Last::Inserted {
            header,
            place,
            before,
        } => put_five(out, 3, header_number(header), place, 0, before),
        Last::Removed {
            header,
            place,
            count,
            before,
        } => put_five(out, 4, header_number(header), place, count, before),
    }
}

#[unsafe(no_mangle)]
pub extern "C" fn dgn_record(journal: &[u8], jused: usize, out: &mut [usize]) -> usize
    ensures { Replied 5 (record_reply journal.now jused) out.old result out.new }
{
    if out.len() < 5 {
        return 1;
    }
    if !limits::used_ok(journal.len(), jused) {
        return 1;
    }
    if jused == 0 {
        return 17;
    }
    let Some(last) = journals::last_record(&journal[..jused]) else {
        return 19;
    };
    put_last(out, last)
}
