// The deleted flags of the elements of an extent, in a file's used part: counted, set alike with the old ones packed into
// a journal's free part, and written back from a payload. The elements are found one after another by their sizes, up to
// the place `end`. Definitions: specs/Extents; proofs/Walked: in an accepted file they are the extent's.

#![tactic(auto)]

ghost use Rattle.std.specs.Prelude.{◌≡◌, ◌/◌, ◌≤◌, ◌^◌, length, ltb};
ghost use Rattle.words.specs.Words.{words};
ghost use Rattle.edits.specs.Bits.{binary, flag_size, word_flags, flags_ok};
ghost use Rattle.flags.specs.Extents.{places_by, behind_by, places_in, flag_put, flags_put, flags_read, all_put, old_put};

// The flags of up to sixteen elements as the bits of a word, the first in the lowest, and the place behind them.
#[derive(Clone, Copy)]
pub struct Sixteen {
    pub next: usize,
    pub bits: usize,
}

// Sets or clears the deleted flag of the element at a place.
fn put_flag(used: &mut [u8], place: usize, deleted: bool)
    ensures { used.new ≡ flag_put deleted place used.old }
{
    let w = words::word(used, place) % 32768;
    if deleted {
        words::put_word(used, place, (32768 + w) as u16);
    } else {
        words::put_word(used, place, w as u16);
    }
}

// How many elements there are from a place on.
pub fn count(used: &[u8], at: usize, end: usize) -> usize
    ensures { result ≡ length (places_in (words used.now) at end) }
{
    if used.len() / 2 < end {
        return 0;
    }
    let mut here = at;
    let mut n = 0;
    while here < end {
        here += headers::size_at(used, here);
        n += 1;
    }
    n
}

// The flags of up to sixteen elements from a place on become the bits of a word: the old ones, and the place behind them.
fn exchange(used: &mut [u8], at: usize, end: usize, new: usize) -> Sixteen
    requires { end ≤ length used.old / 2 }
    ensures flags { result ≡ flags_read 16 (words used.old) at end }
    ensures bytes { used.new ≡ flags_put (places_by 16 (words used.old) at end) (binary 16 new) used.old }
{
    let mut here = at;
    let mut rest = new;
    let mut bits = 0;
    let mut weight = 1;
    for _ in 0..16usize {
        if end <= here {
            return Sixteen { next: here, bits };
        }
        bits += weight * (words::word(used, here) / 32768);
        let next = here + (words::word(used, here + 1) + 2);
        put_flag(used, here, rest % 2 == 1);
        here = next;
        rest /= 2;
        weight *= 2;
    }
    Sixteen { next: here, bits }
}

// Marks the elements from a place on deleted, or live; their old flags become the first words of `out`.
pub fn mark(used: &mut [u8], at: usize, end: usize, deleted: bool, out: &mut [u8])
    ensures bytes { used.new ≡ all_put deleted at end used.old }
    ensures old { out.new ≡ old_put at end used.old out.old }
{
    if used.len() / 2 < end {
        return;
    }
    let new = kinds::pick(deleted, 65535, 0);
    let mut here = at;
    let mut i = 0;
    while here < end {
        let old = exchange(used, here, end, new);
        words::put_word(out, i, old.bits as u16);
        here = old.next;
        i += 1;
    }
}

// The flags of the elements from a place on become those of a payload; past its last bit they stay.
pub fn restore(used: &mut [u8], at: usize, end: usize, payload: &[u8])
    ensures { used.new ≡ flags_put (places_in (words used.old) at end) (word_flags (words payload.now)) used.old }
{
    if used.len() / 2 < end {
        return;
    }
    let n = payload.len() / 2;
    let mut here = at;
    for i in 0..n {
        let old = exchange(used, here, end, words::word(payload, i));
        here = old.next;
    }
}

// The words that the flags of n elements take.
pub fn flag_size(n: usize) -> usize
    ensures { result ≡ flag_size n }
{
    n / 16 + (n % 16 + 15) / 16
}

// Whether a payload is the flags of n elements: as many words as they take, with no spare bit set.
pub fn flags_ok(n: usize, payload: &[u8]) -> bool
    ensures { result ≡ flags_ok n (words payload.now) }
{
    if payload.len() / 2 != flag_size(n) {
        return false;
    }
    words::word(payload, n / 16) >> (n % 16) == 0
}
