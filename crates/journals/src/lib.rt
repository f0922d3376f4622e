// The records of a journal, in a lent buffer: one pushed behind the used part, and the last one read back. Lengths are
// in bytes, places in words. Where a record does not fit, the buffer stays as it was. Definitions: specs/Journals.

#![tactic(auto)]

ghost use Rattle.std.specs.Prelude.{◌≡◌, ◌+◌, ◌*◌, ◌≤◌, ◌&&◌, length};
ghost use Rattle.words.specs.Words.{bytes};
ghost use Rattle.edits.specs.Records.{six, place_of, at_top};
ghost use Rattle.journals.specs.Journals.{six_put, record_pushed, well_formed, RecordRead, LastRead};

use words::{long, word};

// The header place of a record at the top: the long -1.
pub const TOP: usize = 4294967295;

// The six words behind a record's payload, as bytes.
fn trailer(kind: usize, header: usize, place: usize, count: usize) -> [u8; 12]
    ensures { result ≡ bytes (six kind (place_of header) place count) }
{
    [
        (kind % 256) as u8,
        (kind / 256 % 256) as u8,
        (header / 65536 % 256) as u8,
        (header / 65536 / 256 % 256) as u8,
        (header % 65536 % 256) as u8,
        (header % 65536 / 256 % 256) as u8,
        (place / 65536 % 256) as u8,
        (place / 65536 / 256 % 256) as u8,
        (place % 65536 % 256) as u8,
        (place % 65536 / 256 % 256) as u8,
        (count % 256) as u8,
        (count / 256 % 256) as u8,
    ]
}

// The six words of a record go behind its payload, where they fit.
pub fn put_six(
    journal: &mut [u8],
    at: usize,
    kind: usize,
    header: usize,
    place: usize,
    count: usize,
)
    ensures { journal.new ≡ six_put journal.old at kind header place count }
{
    let six = trailer(kind, header, place, count);
    copies::copy_in(journal, at, &six);
}

// A record goes behind the used part of a journal: the payload, then its six words.
pub fn push(
    journal: &mut [u8],
    jused: usize,
    kind: usize,
    header: usize,
    place: usize,
    payload: &[u8],
)
    ensures { journal.new ≡ record_pushed journal.old jused kind header place payload.now }
{
    let n = payload.len();
    if jused % 2 != 0 {
        return;
    }
    if n % 2 != 0 {
        return;
    }
    if journal.len() < jused {
        return;
    }
    if journal.len() - jused < n {
        return;
    }
    if journal.len() - jused - n < 12 {
        return;
    }
    copies::copy_in(journal, jused, payload);
    put_six(journal, jused + n, kind, header, place, n / 2);
}

// A record read back from a journal: its places and its payload, with the used length before it. `header` is the
// number of the header place's long, TOP at the top; the old flags, or the words removed, are the `count` words from
// byte `before` on.
#[derive(Clone, Copy)]
pub enum Last {
    Flag {
        place: usize,
        count: usize,
        before: usize,
    },
    Renamed {
        place: usize,
        first: usize,
        second: usize,
        before: usize,
    },
    Inserted {
        header: usize,
        place: usize,
        before: usize,
    },
    Removed {
        header: usize,
        place: usize,
        count: usize,
        before: usize,
    },
}

// Whether the header place is the top and the payload is as long as it may be.
fn at_top_with(header: usize, long: bool) -> bool
    ensures { result ≡ (at_top (place_of header) && long) }
{
    if header == TOP {
        return long;
    }
    false
}

// Whether the kind is 1 to 4, and the header place and the number of payload words are the kind's.
fn well_formed(kind: usize, header: usize, count: usize) -> bool
    ensures { result ≡ well_formed kind (place_of header) count }
{
    if kind == 1 {
        return at_top_with(header, 1 <= count);
    }
    if kind == 2 {
        return at_top_with(header, count == 2);
    }
    if kind == 3 {
        return count == 0;
    }
    kind == 4
}

// The record whose six words begin at word t, behind a payload of count words; none where it is ill-formed.
fn record_at(journal: &[u8], t: usize, count: usize) -> Option<Last>
    requires { (count ≤ t) × (2 * t + 12 ≤ length journal.now) }
    ensures { RecordRead journal.now t count result }
{
    let kind = word(journal, t);
    let header = long(journal, t + 1);
    let place = long(journal, t + 3);
    let start = t - count;
    let before = 2 * start;
    if !well_formed(kind, header, count) {
        return None;
    }
    if kind == 1 {
        return Some(Last::Flag {
            place,
            count,
            before,
        });
    }
    if kind == 2 {
        return Some(Last::Renamed {
            place,
            first: word(journal, start),
            second: word(journal, start + 1),
            before,
        });
    }
    if kind == 3 {
        return Some(Last::Inserted {
            header,
            place,
            before,
        });
    }
    Some(Last::Removed {
        header,
        place,
        count,
        before,
    })
}

// The last record of a journal, all of whose bytes are used; none where it is ill-formed.
pub fn last_record(journal: &[u8]) -> Option<Last>
    ensures { LastRead journal.now result }
{
    let n = journal.len() / 2;
    if n < 6 {
        return None;
    }
    let t = n - 6;
    let count = word(journal, t + 5);
    if t < count {
        return None;
    }
    record_at(journal, t, count)
}
