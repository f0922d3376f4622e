// The own rules of ellipses and arcs: where their words stand and whether their floats are numbers. Reads are total: what
// stands beyond the slice is 0. The definitions are in specs/Curves.

#![tactic(auto)]

ghost use Rattle.std.specs.Prelude.{◌≡◌, not, [], ◌∷◌, ◌+◌, ◌<◌, ◌^◌};
ghost use Rattle.words.specs.Words.{words, word_at};
ghost use Rattle.dfloats.specs.FirstWord.{is_reserved};
ghost use Rattle.curves.specs.Curves.{axes_word, origin_word, each_float_ok, floats_ok};

// The word of the axes, from the element's start.
pub fn axes_word(t: usize) -> usize
    ensures { result ≡ axes_word t }
{
    if t == 15 { 18 } else { 22 }
}

// The word of the origin.
pub fn origin_word(dim: usize, t: usize) -> usize
    ensures { result ≡ origin_word dim t }
{
    let turn = axes_word(t) + 8;
    if dim == 2 { turn + 2 } else { turn + 8 }
}

// Whether the float that begins at word k is a number.
fn float_ok(s: &[u8], k: usize) -> bool
    ensures { result ≡ not (is_reserved (word_at (words s.now) k)) }
{
    !dfloats::is_reserved(words::word(s, k))
}

// Whether the two floats from word k on are numbers.
fn pair_ok(s: &[u8], k: usize) -> bool
    requires { k + 4 < 2 ^ 64 }
    ensures { result ≡ each_float_ok (0 ∷ 4 ∷ []) (words s.now) k }
{
    if !float_ok(s, k) {
        return false;
    }
    float_ok(s, k + 4)
}

// All floats of the ellipse or arc at a place, of type t.
pub fn floats_ok(s: &[u8], at: usize, t: usize, dim: usize) -> bool
    ensures { result ≡ floats_ok dim t (words s.now) at }
{
    if s.len() / 2 <= at {
        return true;
    }
    let origin = at + origin_word(dim, t);
    if !pair_ok(s, at + axes_word(t)) {
        return false;
    }
    if !pair_ok(s, origin) {
        return false;
    }
    if dim == 2 {
        return true;
    }
    float_ok(s, origin + 8)
}
