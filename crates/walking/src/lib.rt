// The walk over an accepted file in file order: the next element with its depth. Definitions: specs/Walk.

#![tactic(auto)]

ghost use Rattle.std.specs.Prelude.{◌≡◌, ◌<◌, length, get_or};
ghost use Rattle.words.specs.Words.{words};
ghost use Rattle.headers.specs.Header.{extent_at};
ghost use Rattle.walking.specs.Walk.{closed_to, opens, next_of, walk_start};

// A place of the walk in file order: the element's place and depth, and for each depth where the list around it ends.
#[derive(Clone, Copy)]
pub struct Walk {
    pub place: usize,
    pub depth: usize,
    pub ends: [usize; 9],
}

// The words of the extent of the header at a place.
fn extent_at(s: &[u8], at: usize) -> usize
    requires { at < length s.now }
    ensures { result ≡ extent_at (words s.now) at }
{
    19 + words::word(s, at + 18)
}

// The end that is kept of the list at a depth, 0 where none is.
pub fn end_in(ends: [usize; 9], depth: usize) -> usize
    ensures { result ≡ get_or ends depth 0 }
{
    if 8 < depth {
        return 0;
    }
    ends[depth]
}

// The depth of what follows at `next` an element of a depth: less by each list that ends there.
pub fn closed_to(depth: usize, ends: [usize; 9], next: usize) -> usize
    ensures { result ≡ closed_to depth ends next }
{
    for d in (1..=depth).rev() {
        if end_in(ends, d) != next {
            return d;
        }
    }
    0
}

// Whether the element at a place opens a list: a header with components, above the deepest depth.
pub fn opens_list(s: &[u8], at: usize, depth: usize) -> bool
    ensures { result ≡ opens (words s.now) at depth }
{
    if s.len() <= at {
        return false;
    }
    if 8 <= depth {
        return false;
    }
    if kinds::is_header(headers::type_at(s, at)) {
        return headers::size_at(s, at) < extent_at(s, at);
    }
    false
}

// The next element in file order of an accepted file: its place, its depth, and the ends of the lists around it. After
// the last element it is the marker's place.
pub fn next(file: &[u8], w: Walk) -> Walk
    ensures { result ≡ next_of (words file.now) w }
{
    let at = w.place;
    let depth = w.depth;
    if file.len() / 2 <= at {
        return w;
    }
    let mut ends = w.ends;
    let next = at + headers::size_at(file, at);
    if opens_list(file, at, depth) {
        ends[depth + 1] = at + extent_at(file, at);
        return Walk {
            place: next,
            depth: depth + 1,
            ends,
        };
    }
    Walk {
        place: next,
        depth: closed_to(depth, ends, next),
        ends,
    }
}

// Where the walk begins: at the first element, or the marker of an empty file.
pub fn start() -> Walk
    ensures { result ≡ walk_start }
{
    Walk {
        place: 0,
        depth: 0,
        ends: [0; 9],
    }
}
