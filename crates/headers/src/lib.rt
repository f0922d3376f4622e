// The header of one element: its type, its size, its extent, and the checks of bits 6 and 7 of word 0 and of its depth.
// Definitions: specs/Header, specs/Flags.

#![tactic(auto)]

ghost use Rattle.std.specs.Prelude.{◌≡◌, ◌&&◌};
ghost use Rattle.words.specs.Words.{words};
ghost use Rattle.headers.specs.Checks.{first_fault};
ghost use Rattle.headers.specs.Flags.{reserved_ok, place_ok, flag_checks};
ghost use Rattle.headers.specs.Header.{type_at, size_at, extent_words};

// The type of the element at a place.
pub fn type_at(s: &[u8], at: usize) -> usize
    ensures { result ≡ type_at (words s.now) at }
{
    kinds::type_of(words::word(s, at))
}

// The size of the element at a place, in words.
pub fn size_at(s: &[u8], at: usize) -> usize
    ensures { result ≡ size_at (words s.now) at }
{
    if at < s.len() {
        words::word(s, at + 1) + 2
    } else {
        2
    }
}

// The words of the extent of the element at a place: a header's by its total, any other's its size.
pub fn extent_words(file: &[u8], at: usize) -> usize
    ensures { result ≡ extent_words (words file.now) at }
{
    if file.len() <= at {
        return 2;
    }
    if kinds::is_header(type_at(file, at)) {
        return 19 + words::word(file, at + 18);
    }
    size_at(file, at)
}

// 4 and 5: bits 6 and 7 of word 0, as one number.
fn flags_ok(w: usize, depth: usize) -> bool
    ensures { result ≡ (reserved_ok w && place_ok depth w) }
{
    if w / 64 % 4 == kinds::pick(depth == 0, 0, 2) {
        return true;
    }
    kinds::type_of(w) == 9
}

// The number of the first fault in bits 6 and 7 of word 0 and in the depth, 0 where there is none.
pub fn flag_fault(w: usize, depth: usize) -> usize
    ensures { result ≡ first_fault (flag_checks depth w) }
{
    if !flags_ok(w, depth) {
        return kinds::pick(w / 64 % 2 == 0, 5, 4);
    }
    if 8 < depth {
        return 10;
    }
    0
}
