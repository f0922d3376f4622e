// Attribute linkages in the words of a lent slice, from one place to another. Reads are total: what stands beyond the
// slice is 0. The definitions are in specs/Linkages.

#![tactic(auto)]

ghost use Rattle.std.specs.Prelude.{◌≡◌, ◌+◌, ◌<◌, ◌^◌, Some};
ghost use Rattle.words.specs.Words.{words};
ghost use Rattle.linkages.specs.Linkages.{linkage_words, fitting_words, linkages_fill, linkage_at, linkage_in};

// What the walk gives: a linkage's kind, its place (a word's index in the slice), its size in words and its id.
#[derive(Clone, Copy)]
pub struct Linkage {
    pub user: bool,
    pub place: usize,
    pub size: usize,
    pub id: usize,
}

// The words of a linkage by its first word, 0 where that is no linkage's. Both kinds are worked out and one is picked: which
// one it is alternates.
fn linkage_words(w: usize) -> usize
    ensures { result ≡ linkage_words w }
{
    let follow = w % 256;
    let user = kinds::pick(follow == 0, 0, 1 + follow);
    let other = kinds::pick(w == 0, 4, kinds::pick(w == 32768, 4, 0));
    kinds::pick(w / 4096 % 2 == 1, user, other)
}

// The words of the linkage that starts at the place `at` and ends by `end`, 0 where none does.
fn fitting_words(s: &[u8], at: usize, end: usize) -> usize
    ensures { result ≡ fitting_words (words s.now) at end }
{
    if end <= at {
        return 0;
    }
    let n = linkage_words(words::word(s, at));
    if end - at < n {
        return 0;
    }
    n
}

// Whether linkages fill the words from the place `at` to the place `end` exactly.
pub fn linkages_fill(s: &[u8], at: usize, end: usize) -> bool
    ensures { result ≡ linkages_fill (words s.now) at end }
{
    let mut here = at;
    while here != end {
        let n = fitting_words(s, here, end);
        if n == 0 {
            return false;
        }
        here += n;
    }
    true
}

// The linkage that starts at the place `at`.
fn linkage_at(s: &[u8], at: usize) -> Linkage
    requires { at + 1 < 2 ^ 64 }
    ensures { Some result ≡ linkage_at (words s.now) at }
{
    let w = words::word(s, at);
    let size = linkage_words(w);
    if w / 4096 % 2 == 1 {
        let id = words::word(s, at + 1);
        return Linkage {
            user: true,
            place: at,
            size,
            id,
        };
    }
    Linkage {
        user: false,
        place: at,
        size,
        id: 0,
    }
}

// Linkage k, counted from 0, of those that stand from the place `at` to the place `end`; nothing where they end, or words
// that are no linkage stand, before it.
pub fn linkage_in(s: &[u8], at: usize, end: usize, k: usize) -> Option<Linkage>
    ensures { result ≡ linkage_in (words s.now) at end k }
{
    let mut here = at;
    for _ in 0..k {
        let n = fitting_words(s, here, end);
        if n == 0 {
            return None;
        }
        here += n;
    }
    if fitting_words(s, here, end) == 0 {
        return None;
    }
    Some(linkage_at(s, here))
}
