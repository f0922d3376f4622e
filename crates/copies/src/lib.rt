// Bytes copied into a lent buffer, and cleared there. The definitions are in specs/Copies.

#![tactic(auto)]

ghost use Rattle.std.specs.Prelude.{◌≡◌};
ghost use Rattle.copies.specs.Copies.{copied, cleared};

// The bytes from `at` on become those of src, where they fit.
pub fn copy_in(s: &mut [u8], at: usize, src: &[u8])
    ensures { s.new ≡ copied s.old at src.now }
{
    if s.len() < at {
        return;
    }
    if s.len() - at < src.len() {
        return;
    }
    for k in 0..src.len() {
        s[at + k] = src[k];
    }
}

// The bytes from `at` to `end` become zero, where both stand in this order in the buffer.
pub fn clear(s: &mut [u8], at: usize, end: usize)
    ensures { s.new ≡ cleared s.old at end }
{
    if end < at {
        return;
    }
    if s.len() < end {
        return;
    }
    s[at..end].fill(0);
}
