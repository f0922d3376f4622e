// The finder: the first cell of an accepted file in file order that has a name, deleted cells passed over unless they are asked
// for. Definitions: specs/Finder; of one look specs/Look.

#![tactic(auto)]

ghost use Rattle.std.specs.Prelude.{◌≡◌, ◌+◌, ◌<◌, ◌&&◌, length, eqb};
ghost use Rattle.words.specs.Words.{words, word_at};
ghost use Rattle.headers.specs.Header.{type_at};
ghost use Rattle.finder.specs.declared.Wanted.TheVariants.{Live, WithDeleted};
ghost use Rattle.finder.specs.Finder.{has_name, is_live, is_wanted, is_hit, search_of, find_of};
ghost use Rattle.finder.specs.Found.{unlooked, none_named};
ghost use Rattle.finder.specs.Look.{MayLook, MayPass, passed_by, FirstFrom};

use names::Name;
use refusals::Refusal;

// Which cells are found: live ones alone, or deleted ones too.
#[derive(Clone, Copy)]
pub enum Wanted {
    Live,
    WithDeleted,
}

// The first cell with a name: its place and how many elements were looked at, itself counted.
#[derive(Clone, Copy)]
pub struct Found {
    pub place: usize,
    pub looks: usize,
}

// Why no cell was found: the refusal, and how many elements were looked at, all of them where it is 13.
#[derive(Clone, Copy)]
pub struct Missed {
    pub refusal: Refusal,
    pub looks: usize,
}

impl Missed {
    // No cell of the name, after so many looks.
    pub fn none_named(looks: usize) -> Missed
        ensures { result ≡ none_named looks }
    {
        Missed {
            refusal: Refusal {
                number: 13,
                place: 0,
            },
            looks,
        }
    }
}

// A refusal of the file or of the text comes before any look.
impl From<Refusal> for Missed {
    ghost from_gives = { λ refusal missed. missed ≡ unlooked refusal };

    fn from(refusal: Refusal) -> Missed {
        Missed { refusal, looks: 0 }
    }
}

// Whether two words stand at a place and after it.
fn has_words(s: &[u8], at: usize, name: Name) -> bool
    requires { at < length s.now + 20 }
    ensures { result ≡ (eqb (word_at (words s.now) at) name.first && eqb (word_at (words s.now) (at + 1)) name.second) }
{
    if words::word(s, at) == name.first {
        return words::word(s, at + 1) == name.second;
    }
    false
}

// Whether the element at a place is of a type and has the name of two words from its word k on. The words are asked first:
// they are seldom those of the name, while types alternate.
fn is_named(s: &[u8], at: usize, t: usize, k: usize, name: Name) -> bool
    requires { (at < length s.now) × (k < 20) }
    ensures { result ≡ (eqb (type_at (words s.now) at) t && (eqb (word_at (words s.now) (at + k)) name.first && eqb (word_at (words s.now) (at + k + 1)) name.second)) }
{
    if has_words(s, at + k, name) {
        return headers::type_at(s, at) == t;
    }
    false
}

// Whether the element at a place is a type 1 or 2 with the name of two words.
fn has_name(s: &[u8], at: usize, name: Name) -> bool
    requires { at < length s.now }
    ensures { result ≡ has_name (words s.now) at name.first name.second }
{
    if is_named(s, at, 1, 16, name) {
        return true;
    }
    is_named(s, at, 2, 19, name)
}

// Whether the element at a place is live: its own deleted flag is clear.
pub fn is_live(s: &[u8], at: usize) -> bool
    ensures { result ≡ is_live (words s.now) at }
{
    words::word(s, at) / 32768 % 2 == 0
}

// Whether the element at a place is wanted.
fn is_wanted(s: &[u8], at: usize, wanted: Wanted) -> bool
    ensures { result ≡ is_wanted wanted (words s.now) at }
{
    match wanted {
        Wanted::Live => is_live(s, at),
        Wanted::WithDeleted => true,
    }
}

// Whether the element at a place is a type 1 or 2 with the name of two words and is wanted.
fn is_hit(s: &[u8], at: usize, name: Name, wanted: Wanted) -> bool
    requires { at < length s.now }
    ensures { result ≡ is_hit wanted (words s.now) at name.first name.second }
{
    if has_name(s, at, name) {
        return is_wanted(s, at, wanted);
    }
    false
}

// The first element from a place to another that has a name and is wanted, after `before` others; else 13 with the count of all.
// An element's own words are followed by the next element in file order, be it a component, a sibling or what follows an
// extent, so the search goes on by size.
fn look(
    file: &[u8],
    from: usize,
    to: usize,
    before: usize,
    name: Name,
    wanted: Wanted,
) -> Result<Found, Missed>
    requires { MayLook file.now before from to }
    ensures { FirstFrom wanted (words file.now) name.first name.second before from to result }
{
    let mut at = from;
    let mut n = before;
    while at < to {
        if is_hit(file, at, name, wanted) {
            return Ok(Found {
                place: at,
                looks: n + 1,
            });
        }
        at += headers::size_at(file, at);
        n += 1;
    }
    Err(Missed::none_named(n))
}

// An answer with so many elements after it that have no name.
fn past(answer: Result<Found, Missed>, n: usize) -> Result<Found, Missed>
    requires { MayPass answer n }
    ensures { result ≡ passed_by answer n }
{
    match answer {
        Ok(found) => Ok(found),
        Err(missed) => Err(Missed {
            looks: missed.looks + n,
            ..missed
        }),
    }
}

// The first wanted cell in file order with the name of two words. The elements at the top are judged up to each header, which is
// looked through with its extent; those before it have no name and are counted alone.
fn search(file: &[u8], dim: usize, name: Name, wanted: Wanted) -> Result<Found, Missed>
    ensures { result ≡ search_of wanted dim file.now name.first name.second }
{
    if !limits::call_ok(file, dim) {
        return Err(Missed::from(Refusal {
            number: 1,
            place: 0,
        }));
    }
    let bound = file.len() / 2;
    let mut here = 0;
    let mut answer = Err(Missed::none_named(0));
    loop {
        match files::reach(file, here, dim, bound, true)? {
            files::Reached::End { place: _, before } => return past(answer, before),
            files::Reached::Element { start, end, before } => {
                if let Err(missed) = past(answer, before) {
                    answer = look(file, start, end, missed.looks, name, wanted);
                }
                here = end;
            }
        }
    }
}

// The first wanted cell in file order with the name of a text: the refusals of the file come before that of the text.
fn find_wanted(file: &[u8], dim: usize, text: &[u8], wanted: Wanted) -> Result<Found, Missed>
    ensures { result ≡ find_of wanted dim file.now text.now }
{
    match names::pack(text) {
        Ok(name) => search(file, dim, name, wanted),
        Err(refusal) => {
            files::judge(file, dim)?;
            Err(Missed::from(refusal))
        }
    }
}

// The first live cell in file order with the name of a text. Deleted cells are passed over and counted.
pub fn find(file: &[u8], dim: usize, text: &[u8]) -> Result<Found, Missed>
    ensures { result ≡ find_of Live dim file.now text.now }
{
    find_wanted(file, dim, text, Wanted::Live)
}

// The first cell in file order with the name of a text, be it live or deleted.
pub fn find_with_deleted(file: &[u8], dim: usize, text: &[u8]) -> Result<Found, Missed>
    ensures { result ≡ find_of WithDeleted dim file.now text.now }
{
    find_wanted(file, dim, text, Wanted::WithDeleted)
}
