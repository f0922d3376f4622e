// Judging a whole file: judging an element that is a header and judging a list of components call each other; the elements
// of one list are a loop, so that the depth of calls is that of nesting. The rules of one element's own words are
// elements::head_at, where a list ends is ends::stop_at. Definitions: specs/Judge, specs/Reach; the inner contracts of
// the two are in specs/Progress.

#![tactic(auto)]

ghost use Rattle.std.specs.Prelude.{◌≡◌, false, cond, ◌||◌, ℕ, ◌+◌, ◌/◌, ◌≤◌, ◌<◌, ◌^◌, max, length, ltb, leb};
ghost use Rattle.words.specs.Words.{words};
ghost use Rattle.headers.specs.Header.{type_at};
ghost use Rattle.elements.specs.Rules.{count_ok, HeadRead};
ghost use Rattle.elements.specs.declared.Head.TheVariants.{Complex};
ghost use Rattle.files.specs.Judge.{element_of, judge_of};
ghost use Rattle.files.specs.Reach.{reached_of};
ghost use Rattle.files.specs.Progress.{depth_of, list_in, ElementJudged, ListJudged, run_of, Progressed};

use refusals::Refusal;

mod ends;

// What stands where an element of a list would begin.
#[derive(Clone, Copy)]
pub enum Stop {
    More,
    Done,
    Lacking,
}

// What an element or a list of elements that is accepted is judged to be: where it ends, its elements at all depths, the
// greatest depth and how many of them stand in the list itself.
#[derive(Clone, Copy)]
pub struct Judgement {
    pub next: usize,
    pub elements: usize,
    pub deepest: usize,
    pub direct: usize,
}

// What judging a file answers where it is accepted: its elements, their greatest depth and the marker's place.
#[derive(Clone, Copy)]
pub struct Accepted {
    pub elements: usize,
    pub deepest: usize,
    pub marker: usize,
}

// The larger of two numbers.
fn larger(a: usize, b: usize) -> usize
    ensures { result ≡ max a b }
{
    if a <= b { b } else { a }
}

// The smaller of two numbers.
fn smaller(a: usize, b: usize) -> usize
    ensures { result ≡ cond (leb a b) a b }
{
    if a <= b { a } else { b }
}

// Whether judging stops after a header that ends at a place.
fn stops(each: bool, until: usize, end: usize) -> bool
    ensures { result ≡ (each || ltb until end) }
{
    if each {
        return true;
    }
    until < end
}

// How far elements of a list were judged, one after another: up to one that ends after a place, or is a header (`last`); up
// to a place where no head of an element stands; or to a refusal beneath an element.
#[derive(Clone, Copy)]
enum Progress {
    Stopped {
        next: usize,
        last: usize,
        elements: usize,
        deepest: usize,
        direct: usize,
    },
    Halted {
        number: usize,
        place: usize,
        elements: usize,
        deepest: usize,
        direct: usize,
    },
    Broken {
        refusal: Refusal,
    },
}

// What the elements at the top come to, one after another, where none is refused: the first that ends after a place, or is a
// header, with how many stand before it; or the end of all.
#[derive(Clone, Copy)]
pub enum Reached {
    Element {
        start: usize,
        end: usize,
        before: usize,
    },
    End {
        place: usize,
        before: usize,
    },
}

// The greatest depth of elements at a depth, of which there are `direct`, with the greatest beneath them; 0 of none.
fn depth_of(direct: usize, depth: usize, below: usize) -> usize
    ensures { result ≡ depth_of direct depth below }
{
    if direct == 0 {
        return 0;
    }
    larger(depth, below)
}

// A whole list, by how far its elements were judged.
fn closed(s: &[u8], bound: usize, depth: usize, progress: Progress) -> Result<Judgement, Refusal>
    ensures { (dim under at : ℕ) → Progressed (run_of (list_in dim depth under s.now at bound) bound false) progress → ListJudged (list_in dim depth under s.now at bound) result }
{
    match progress {
        Progress::Stopped {
            next,
            last: _,
            elements,
            deepest,
            direct,
        } => Ok(Judgement {
            next,
            elements,
            deepest,
            direct,
        }),
        Progress::Halted {
            number,
            place,
            elements,
            deepest,
            direct,
        } => match ends::stop_at(s, place, bound, depth) {
            Stop::Done => Ok(Judgement {
                next: place,
                elements,
                deepest,
                direct,
            }),
            Stop::Lacking => Err(Refusal { number: 2, place }),
            Stop::More => Err(Refusal { number, place }),
        },
        Progress::Broken { refusal } => Err(refusal),
    }
}

// 9, after the components: the header at a place, of type t, has `direct` direct components, or is of a type without a count.
fn count_ok(s: &[u8], at: usize, t: usize, direct: usize) -> bool
    requires { (t ≡ type_at (words s.now) at) × (at + 19 < 2 ^ 64) }
    ensures { result ≡ count_ok (words s.now) at direct }
{
    if kinds::is_counted(t) {
        return words::word(s, at + 19) == direct;
    }
    true
}

// An element whose own words are read as a header: its components, a list of their own, then its count. Most headers have
// components; one that has none needs no list.
#[cycle(judging)]
fn judge_element(
    s: &[u8],
    at: usize,
    inner: usize,
    end: usize,
    depth: usize,
    dim: usize,
) -> Result<Judgement, Refusal>
    requires { (at + 20 ≤ inner) × ((inner ≤ end) × ((depth ≤ 8) × (end ≤ length s.now / 2))) }
    ensures { (under bound : ℕ) → HeadRead dim depth under s.now at bound (Complex inner end) → ElementJudged (list_in dim depth under s.now at bound) result }
{
    let t = headers::type_at(s, at);
    if inner == end {
        if count_ok(s, at, t, 0) {
            return Ok(Judgement {
                next: end,
                elements: 1,
                deepest: depth,
                direct: 1,
            });
        }
        return Err(Refusal {
            number: 9,
            place: at,
        });
    }
    let components = judge_list(s, inner, end, depth + 1, t, dim, end, false);
    let list = closed(s, end, depth + 1, components)?;
    if count_ok(s, at, t, list.direct) {
        return Ok(Judgement {
            next: end,
            elements: 1 + list.elements,
            deepest: larger(depth, list.deepest),
            direct: 1,
        });
    }
    Err(Refusal {
        number: 9,
        place: at,
    })
}

// The elements of a list in order, up to and with the first that ends after `until`, or, where `each` holds, that is a header. No
// head stands at the marker or at the list's bound, so what stands there is asked only where there is none. The bound lies in
// the slice; taking the smaller of it and the slice's end lets the compiler drop the tests of reads before it.
#[cycle(judging)]
fn judge_list(
    s: &[u8],
    at: usize,
    bound: usize,
    depth: usize,
    under: usize,
    dim: usize,
    until: usize,
    each: bool,
) -> Progress
    requires { bound ≤ length s.now / 2 }
    ensures { Progressed (run_of (list_in dim depth under s.now at bound) until each) result }
{
    let last = smaller(bound, s.len() / 2);
    let mut here = at;
    let mut below: usize = 0;
    let mut deepest: usize = 0;
    let mut direct: usize = 0;
    loop {
        match elements::head_at(s, here, last, depth, under, dim) {
            elements::Head::Bad { number } => {
                let d = depth_of(direct, depth, deepest);
                return Progress::Halted {
                    number,
                    place: here,
                    elements: direct + below,
                    deepest: d,
                    direct,
                };
            }
            elements::Head::Plain { next } => {
                direct += 1;
                if until < next {
                    let d = larger(depth, deepest);
                    return Progress::Stopped {
                        next,
                        last: here,
                        elements: direct + below,
                        deepest: d,
                        direct,
                    };
                }
                here = next;
            }
            elements::Head::Complex { inner, end } => {
                let judged = match judge_element(s, here, inner, end, depth, dim) {
                    Ok(judged) => judged,
                    Err(refusal) => return Progress::Broken { refusal },
                };
                direct += 1;
                below += judged.elements - 1;
                deepest = larger(deepest, judged.deepest);
                if stops(each, until, judged.next) {
                    let d = larger(depth, deepest);
                    return Progress::Stopped {
                        next: judged.next,
                        last: here,
                        elements: direct + below,
                        deepest: d,
                        direct,
                    };
                }
                here = judged.next;
            }
        }
    }
}

// The elements of one list in order, to its end or to the first fault.
fn judge_all(
    s: &[u8],
    at: usize,
    bound: usize,
    depth: usize,
    under: usize,
    dim: usize,
) -> Result<Judgement, Refusal>
    requires { bound ≤ length s.now / 2 }
    ensures { ListJudged (list_in dim depth under s.now at bound) result }
{
    let progress = judge_list(s, at, bound, depth, under, dim, bound, false);
    closed(s, bound, depth, progress)
}

// The elements at the top from a place on, to the first that ends after `until`, or, where `each` holds, that is a header. The slice's
// end is their bound.
pub fn reach(s: &[u8], at: usize, dim: usize, until: usize, each: bool) -> Result<Reached, Refusal>
    ensures { result ≡ reached_of dim (words s.now) at (length s.now / 2) until each }
{
    let bound = s.len() / 2;
    match judge_list(s, at, bound, 0, 0, dim, until, each) {
        Progress::Stopped {
            next,
            last,
            elements: _,
            deepest: _,
            direct,
        } => Ok(Reached::Element {
            start: last,
            end: next,
            before: direct - 1,
        }),
        Progress::Halted {
            number,
            place,
            elements: _,
            deepest: _,
            direct,
        } => match ends::stop_at(s, place, bound, 0) {
            Stop::Done => Ok(Reached::End {
                place,
                before: direct,
            }),
            Stop::Lacking => Err(Refusal { number: 2, place }),
            Stop::More => Err(Refusal { number, place }),
        },
        Progress::Broken { refusal } => Err(refusal),
    }
}

// The element with its extent that starts at a place, with the slice's end as its bound.
pub fn element(
    s: &[u8],
    at: usize,
    depth: usize,
    under: usize,
    dim: usize,
) -> Result<Judgement, Refusal>
    ensures { result ≡ element_of dim depth under (words s.now) at (length s.now / 2) }
{
    let bound = s.len() / 2;
    match judge_list(s, at, bound, depth, under, dim, at, false) {
        Progress::Stopped {
            next,
            last: _,
            elements,
            deepest,
            direct,
        } => Ok(Judgement {
            next,
            elements,
            deepest,
            direct,
        }),
        Progress::Halted {
            number,
            place,
            elements: _,
            deepest: _,
            direct: _,
        } => Err(Refusal { number, place }),
        Progress::Broken { refusal } => Err(refusal),
    }
}

// What a file is judged to be: 1 for the call, then the file's first fault, or its elements.
pub fn judge(file: &[u8], dim: usize) -> Result<Accepted, Refusal>
    ensures { result ≡ judge_of dim file.now }
{
    if !limits::call_ok(file, dim) {
        return Err(Refusal {
            number: 1,
            place: 0,
        });
    }
    let all = judge_all(file, 0, file.len() / 2, 0, 0, dim)?;
    Ok(Accepted {
        elements: all.elements,
        deepest: all.deepest,
        marker: all.next,
    })
}
