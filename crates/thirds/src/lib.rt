// A third of a number, without a divide.

#![tactic(auto)]

ghost use Rattle.std.specs.Prelude.{◌≡◌, ◌/◌};

// 65536 · high + low is 3 · 21845 · high and high + low; what is left at last is small enough to be multiplied.
pub fn third(n: usize) -> usize
    ensures { result ≡ n / 3 }
{
    let mut q = 0;
    let mut rest = n;
    while 65535 < rest {
        let high = rest / 65536;
        q += 21845 * high;
        rest = high + rest % 65536;
    }
    q + rest * 43691 / 131072
}
