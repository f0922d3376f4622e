// The totals on the path from the top down to a header, which are corrected where an element comes in under it or goes
// out, and the room that they leave. A descent finds each enclosing header among its siblings by their extents. The
// definitions are in specs/Totals; proofs/Totals and proofs/Rooms show that of an accepted file they are the book's.

#![tactic(auto)]

ghost use Rattle.std.specs.Prelude.{◌≡◌, ◌+◌, ◌<◌, ◌≤◌, ◌%◌, length, leb};
ghost use Rattle.words.specs.Words.{words};
ghost use Rattle.headers.specs.Header.{extent_at};
ghost use Rattle.edits.specs.Edits.{moved};
ghost use Rattle.totals.specs.Totals.{holder_at, holder_of, word_moved, header_put, totals_put, room_of};

// Which element, of those that follow one another in a list, has a place in its extent: none; the one that starts
// there; or a header around it, whose components start at `inner`.
#[derive(Clone, Copy)]
pub enum Holder {
    Nowhere,
    Itself,
    Inside { place: usize, inner: usize },
}

// Whether every header on the path has room for more words; `place` is the outermost that has not.
#[derive(Clone, Copy)]
pub enum Room {
    Fine,
    Full { place: usize },
}

// What an element is to a place that is before its extent's end.
fn holder_at(file: &[u8], at: usize, place: usize) -> Holder
    requires { at ≤ place }
    ensures { result ≡ holder_at (words file.now) at place }
{
    if at == place {
        return Holder::Itself;
    }
    let size = headers::size_at(file, at);
    if place - at < size {
        return Holder::Nowhere;
    }
    Holder::Inside {
        place: at,
        inner: at + size,
    }
}

// The element, among those from `start` on, whose extent holds the place.
fn find_holder(file: &[u8], start: usize, place: usize) -> Holder
    ensures { result ≡ holder_of (words file.now) start place }
{
    let mut here = start;
    while here <= place {
        let extent = headers::extent_words(file, here);
        if place - here < extent {
            return holder_at(file, here, place);
        }
        here += extent;
    }
    Holder::Nowhere
}

// A word raised or lowered by n, in its 16 bits.
fn moved_word(w: u16, up: bool, n: usize) -> u16
    ensures { result ≡ moved up n w % 65536 }
{
    let w = w as usize;
    if up {
        return ((w + n % 65536) % 65536) as u16;
    }
    if w < n {
        return 0;
    }
    (w - n) as u16
}

// Word i of the file raised or lowered by n.
fn move_word(file: &mut [u8], i: usize, up: bool, n: usize)
    ensures { file.new ≡ word_moved up n i file.old }
{
    let w = words::word(file, i) as u16;
    words::put_word(file, i, moved_word(w, up, n));
}

// The total of the header at a place raised or lowered by n; with `direct` its count, if it has one, by 1.
fn correct_header(file: &mut [u8], place: usize, up: bool, n: usize, direct: bool)
    requires { place < length file.old }
    ensures { file.new ≡ header_put up n direct place file.old }
{
    let counted = kinds::is_counted(headers::type_at(file, place));
    move_word(file, place + 18, up, n);
    if direct {
        if counted {
            move_word(file, place + 19, up, 1);
        }
    }
}

// The total of each header on the path from the top down to the named one raised or lowered by n, and that one's count
// by 1. A header is at depth 8 at most, so the path has nine at most.
pub fn correct_totals(file: &mut [u8], header: usize, up: bool, n: usize)
    ensures { file.new ≡ totals_put up n header file.old }
{
    if file.len() / 2 <= header {
        return;
    }
    let mut at = 0;
    for _ in 0..9usize {
        match find_holder(file, at, header) {
            Holder::Nowhere => return,
            Holder::Itself => {
                correct_header(file, header, up, n, true);
                return;
            }
            Holder::Inside { place, inner } => {
                correct_header(file, place, up, n, false);
                at = inner;
            }
        }
    }
}

// Whether a header's extent stays within 65,535 words where n come in.
fn has_room(file: &[u8], place: usize, n: usize) -> bool
    requires { place < length file.now }
    ensures { result ≡ leb (extent_at (words file.now) place + n) 65535 }
{
    let total = words::word(file, place + 18);
    if 65516 < total {
        return false;
    }
    n <= 65516 - total
}

// 8: the outermost header on the path from the top down to the named one that n more words would make too large.
pub fn room_fault(file: &[u8], header: usize, n: usize) -> Room
    ensures { result ≡ room_of n header file.now }
{
    if file.len() / 2 <= header {
        return Room::Fine;
    }
    let mut at: usize = 0;
    for _ in 0..9usize {
        match find_holder(file, at, header) {
            Holder::Nowhere => {
                return Room::Fine;
            }
            Holder::Itself => {
                if has_room(file, header, n) {
                    return Room::Fine;
                }
                return Room::Full { place: header };
            }
            Holder::Inside { place, inner } => {
                if !has_room(file, place, n) {
                    return Room::Full { place };
                }
                at = inner;
            }
        }
    }
    Room::Fine
}
