// The entries of an index in lent bytes, eight bytes each, read and stored as one number. Reads and stores are total.
// The definitions are in specs/Entries.

#![tactic(auto)]

ghost use Rattle.std.specs.Prelude.{◌≡◌, ◌+◌, ◌*◌, ◌<◌, get_or};
ghost use Rattle.entries.specs.Entries.{entries, entries_ok, Stored};

// Whether so many bytes of a buffer are whole entries.
pub fn entries_ok(size: usize, used: usize) -> bool
    ensures { result ≡ entries_ok size used }
{
    if used % 8 != 0 {
        return false;
    }
    used <= size
}

// A word of its two bytes, low byte first.
fn pair(low: u8, high: u8) -> usize
    ensures { (result ≡ low + 256 * high) × (result < 65536) }
{
    (low as usize) + 256 * (high as usize)
}

// Entry i, 0 where there is none.
pub fn entry(s: &[u8], i: usize) -> usize
    ensures { result ≡ get_or (entries s.now) i 0 }
{
    if i < s.len() / 8 {
        let k = 8 * i;
        281474976710656 * pair(s[k], s[k + 1])
            + 4294967296 * pair(s[k + 2], s[k + 3])
            + 65536 * pair(s[k + 4], s[k + 5])
            + pair(s[k + 6], s[k + 7])
    } else {
        0
    }
}

// Entry i becomes e.
pub fn put_entry(s: &mut [u8], i: usize, e: usize)
    ensures { Stored s.old i e s.new }
{
    let n = s.len() / 8;
    if i < n {
        let k = 8 * i;
        let a = e / 281474976710656;
        let b = e / 4294967296 % 65536;
        let c = e / 65536 % 65536;
        let d = e % 65536;
        s[k] = (a % 256) as u8;
        s[k + 1] = (a / 256 % 256) as u8;
        s[k + 2] = (b % 256) as u8;
        s[k + 3] = (b / 256 % 256) as u8;
        s[k + 4] = (c % 256) as u8;
        s[k + 5] = (c / 256 % 256) as u8;
        s[k + 6] = (d % 256) as u8;
        s[k + 7] = (d / 256 % 256) as u8;
    }
}
