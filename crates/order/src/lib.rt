// The elements of an accepted file in file order, by places, and what the calls that go over them from some number on have in
// common: how such a call begins, when no element fits, and what is taken. Definitions: specs/Order, specs/Calls, specs/Fitting.

#![tactic(auto)]

ghost use Rattle.std.specs.Prelude.{◌≡◌};
ghost use Rattle.words.specs.Words.{words};
ghost use Rattle.order.specs.Order.{start_of};
ghost use Rattle.order.specs.Calls.{begun_of, none_fits};

use refusals::Refusal;

// The number of the next element, and how many numbers are used.
#[derive(Clone, Copy)]
pub struct Part {
    pub next: usize,
    pub used: usize,
}

// The place of element number k: 0 where k is above any file's number of elements.
pub fn start_of(file: &[u8], k: usize) -> usize
    ensures { result ≡ start_of (words file.now) k }
{
    if 1048576 < k {
        return 0;
    }
    let mut at = 0;
    for _ in 0..k {
        at += headers::size_at(file, at);
    }
    at
}

// The beginning of a call whose answer needs so many numbers of a slice with `room`: how many elements the file has, or the
// number that the call returns at once.
pub fn begin(file: &[u8], dim: usize, needed: usize, room: usize) -> Result<usize, usize>
    ensures { result ≡ begun_of dim file.now needed room }
{
    if room < needed {
        return Err(1);
    }
    match files::judge(file, dim) {
        Ok(accepted) => Ok(accepted.elements),
        Err(Refusal { number, place }) => Err(number + 256 * place),
    }
}

// Whether an element is left, number `next` of so many, and nothing was put.
pub fn none_fits(put: usize, next: usize, elements: usize) -> bool
    ensures { result ≡ none_fits put next elements }
{
    if put == 0 {
        return next < elements;
    }
    false
}
