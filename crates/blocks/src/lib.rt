// A journal's bytes in blocks of 512 bytes, each with a check, and back. The definitions are in specs/Blocks, what the two calls
// answer and leave in specs/Calls.

#![tactic(auto)]

ghost use Rattle.std.specs.Prelude.{◌≡◌, ◌*◌, ◌%◌, ◌≤◌, length, take, drop};
ghost use Rattle.words.specs.Words.{words, over};
ghost use Rattle.blocks.specs.Blocks.{sum, zeros, sound, fewest, most, good, block, stored_from, stored, flat_from, flat_of, blocks_for, blocks_in, bad_from, first_bad};
ghost use Rattle.blocks.specs.Calls.{to_blocks, from_blocks, Moves};

use refusals::Refusal;

// The sum of the words, in 16 bits.
pub fn sum_words(b: &[u8]) -> u16
    ensures { result ≡ sum (words b.now) % 65536 }
{
    let mut t: u16 = 0;
    for i in 0..b.len() / 2 {
        t = std::num::wrapping_add_u16(t, words::word(b, i) as u16);
    }
    t
}

// All bytes are zero.
pub fn all_zero(b: &[u8]) -> bool
    ensures { result ≡ zeros b.now }
{
    b.iter().all(|&x| x == 0)
}

// The bytes are a block that uses at least `least` and at most `most` of its bytes.
fn is_sound(b: &[u8], least: usize, most: usize) -> bool
    requires { most ≤ 508 }
    ensures { result ≡ sound least most b.now }
{
    if b.len() != 512 {
        return false;
    }
    let u = words::word(b, 254);
    if u < least {
        return false;
    }
    if most < u {
        return false;
    }
    if u % 2 != 0 {
        return false;
    }
    if !all_zero(&b[u..508]) {
        return false;
    }
    sum_words(b) == 0
}

// The fewest bytes that a block uses where n bytes are left.
fn fewest_of(n: usize) -> usize
    ensures { result ≡ fewest n }
{
    if 512 < n {
        return 508;
    }
    2
}

// The most bytes that block k uses.
fn most_of(k: usize) -> usize
    ensures { result ≡ most k }
{
    if k < 2064 {
        return 508;
    }
    if 2064 < k {
        return 0;
    }
    64
}

// The block of a chunk.
fn put_block(s: &mut [u8], c: &[u8])
    requires { (length s.old ≡ 512) × (length c.now ≤ 508) }
    ensures { s.new ≡ block c.now }
{
    let n = c.len();
    copies::copy_in(s, 0, c);
    copies::clear(s, n, 508);
    let t = std::num::wrapping_add_u16(sum_words(&s[..508]), n as u16);
    words::put_word(s, 254, n as u16);
    words::put_word(s, 255, ((65536 - (t as usize)) % 65536) as u16);
}

// The block of the first 508 bytes of c, or of all of them.
fn put_first(s: &mut [u8], c: &[u8])
    requires { length s.old ≡ 512 }
    ensures { s.new ≡ block (take 508 c.now) }
{
    if c.len() < 508 {
        put_block(s, c);
        return;
    }
    put_block(s, &c[..508]);
}

// The n blocks of a journal.
fn fill(s: &mut [u8], j: &[u8], n: usize)
    requires { (n ≡ blocks_for (length j.now)) × (512 * n ≤ length s.old) }
    ensures { s.new ≡ over s.old 0 (stored_from n j.now) }
{
    for k in 0..n {
        let at = 512 * k;
        put_first(&mut s[at..at + 512], &j[508 * k..]);
    }
}

// How many blocks hold len bytes of a journal: a division by 508 as a multiplication and a shift.
fn blocks_for(len: usize) -> usize
    requires { len ≤ 1048576 }
    ensures { result ≡ blocks_for len }
{
    (len + 507) * 8454661 / 4294967296
}

// A journal's bytes to blocks.
pub fn to_blocks(journal: &[u8], out: &mut [u8]) -> Result<usize, Refusal>
    ensures { Moves (to_blocks journal.now (length out.old)) (stored journal.now) out.old result out.new }
{
    let len = journal.len();
    if !limits::size_ok(len) {
        return Err(Refusal {
            number: 1,
            place: 0,
        });
    }
    let n = blocks_for(len);
    if out.len() < 512 * n {
        return Err(Refusal {
            number: 15,
            place: 0,
        });
    }
    fill(out, journal, n);
    Ok(512 * n)
}

// The bytes from block k on begin with a good block.
fn is_good(s: &[u8], k: usize) -> bool
    requires { 512 * k ≤ length s.now }
    ensures { result ≡ good k (drop (512 * k) s.now) }
{
    let at = 512 * k;
    let left = s.len() - at;
    if left < 512 {
        return false;
    }
    is_sound(&s[at..at + 512], fewest_of(left), most_of(k))
}

// The number of the first bad block among n; n where there is none.
fn first_bad(s: &[u8], n: usize) -> usize
    requires { n ≡ blocks_in (length s.now) }
    ensures { result ≡ first_bad s.now }
{
    for k in 0..n {
        if !is_good(s, k) {
            return k;
        }
    }
    n
}

// How many bytes of a journal n good blocks hold.
fn flat_size(s: &[u8], n: usize) -> usize
    requires { (n ≡ blocks_in (length s.now)) × (bad_from n 0 s.now ≡ n) }
    ensures { result ≡ length (flat_from n s.now) }
{
    let mut t = 0;
    for k in 0..n {
        t += words::word(s, 256 * k + 254);
    }
    t
}

// The bytes of a journal that n good blocks hold.
fn gather(out: &mut [u8], s: &[u8], n: usize)
    requires { (n ≡ blocks_in (length s.now)) × (bad_from n 0 s.now ≡ n) × (length (flat_from n s.now) ≤ length out.old) }
    ensures { out.new ≡ over out.old 0 (flat_from n s.now) }
{
    let mut t = 0;
    for k in 0..n {
        let u = words::word(s, 256 * k + 254);
        let at = 512 * k;
        copies::copy_in(out, t, &s[at..at + u]);
        t += u;
    }
}

// Blocks back to a journal's bytes.
pub fn from_blocks(s: &[u8], out: &mut [u8]) -> Result<usize, Refusal>
    ensures { Moves (from_blocks s.now (length out.old)) (flat_of s.now) out.old result out.new }
{
    let len = s.len();
    if len % 2 != 0 {
        return Err(Refusal {
            number: 1,
            place: 0,
        });
    }
    if 1057280 < len {
        return Err(Refusal {
            number: 1,
            place: 0,
        });
    }
    let n = (len + 511) / 512;
    let bad = first_bad(s, n);
    if bad != n {
        return Err(Refusal {
            number: 22,
            place: bad,
        });
    }
    let size = flat_size(s, n);
    if out.len() < size {
        return Err(Refusal {
            number: 15,
            place: 0,
        });
    }
    gather(out, s, n);
    Ok(size)
}
