// What a call may be handed: the dimension and the lengths of lent bytes. Definitions: specs/Limits.

#![tactic(auto)]

ghost use Rattle.std.specs.Prelude.{◌≡◌};
ghost use Rattle.limits.specs.Limits.{dim_ok, size_ok, used_ok, call_ok};

// Whether files have this dimension.
pub fn dim_ok(dim: usize) -> bool
    ensures { result ≡ dim_ok dim }
{
    if dim == 2 { true } else { dim == 3 }
}

// Whether so many bytes may be lent.
pub fn size_ok(size: usize) -> bool
    ensures { result ≡ size_ok size }
{
    if size % 2 != 0 {
        return false;
    }
    size <= 1048576
}

// Whether a buffer of so many bytes may be lent, with so many of them used.
pub fn used_ok(size: usize, used: usize) -> bool
    ensures { result ≡ used_ok size used }
{
    if !size_ok(size) {
        return false;
    }
    if used % 2 != 0 {
        return false;
    }
    used <= size
}

// Whether a file may be looked at.
pub fn call_ok(file: &[u8], dim: usize) -> bool
    ensures { result ≡ call_ok dim file.now }
{
    if !dim_ok(dim) {
        return false;
    }
    size_ok(file.len())
}
