// What a view gives of the element at a place of an accepted file. Definitions: specs/Views.

#![tactic(auto)]

ghost use Rattle.std.specs.Prelude.{◌≡◌, ◌/◌, ◌<◌, length, Some};
ghost use Rattle.words.specs.Words.{words};
ghost use Rattle.views.specs.Views.{six_at, range_of, display_of, number_if, name_words, element_view, element_in, view_of};

use places::{Above, spotted_at};
use refusals::Refusal;

// The coordinates of the range.
#[derive(Clone, Copy)]
pub struct Range {
    pub low_x: i64,
    pub low_y: i64,
    pub low_z: i64,
    pub high_x: i64,
    pub high_y: i64,
    pub high_z: i64,
}

// Words 14 to 17 of known types other than 1.
#[derive(Clone, Copy)]
pub struct Display {
    pub group: usize,
    pub index: usize,
    pub properties: usize,
    pub style: usize,
    pub weight: usize,
    pub colour: usize,
}

// The two name words of types 1 and 2.
#[derive(Clone, Copy)]
pub struct Name {
    pub first: usize,
    pub second: usize,
}

#[derive(Clone, Copy)]
pub struct Element {
    pub level: usize,
    pub c: bool,
    pub kind: usize,
    pub deleted: bool,
    pub size: usize,
    pub depth: usize,
    pub above: Above,
    pub range: Option<Range>,
    pub display: Option<Display>,
    pub points: Option<usize>,
    pub name: Option<Name>,
    pub total: Option<usize>,
    pub count: Option<usize>,
}

// The range of the element whose words a slice begins with.
fn range_in(own: &[u8]) -> Range
    ensures { Some result ≡ six_at (words own.now) 0 }
{
    Range {
        low_x: ranges::coordinate_at(own, 2),
        low_y: ranges::coordinate_at(own, 4),
        low_z: ranges::coordinate_at(own, 6),
        high_x: ranges::coordinate_at(own, 8),
        high_y: ranges::coordinate_at(own, 10),
        high_z: ranges::coordinate_at(own, 12),
    }
}

// The range of the element at a place, where it has the words. Of a part with just these words the compiler knows that they are
// there, and drops each test for them.
pub fn range_at(file: &[u8], at: usize) -> Option<Range>
    ensures { result ≡ range_of (words file.now) at }
{
    if headers::size_at(file, at) < 14 {
        return None;
    }
    let start = 2 * at;
    if file.len() - start < 28 {
        return Some(range_in(&file[start..]));
    }
    let end = start + 28;
    Some(range_in(&file[start..end]))
}

// Words 14 to 17, of the types that have them.
fn display_at(file: &[u8], at: usize) -> Option<Display>
    requires { at < length file.now / 2 }
    ensures { result ≡ display_of (words file.now) at }
{
    if kinds::is_linked(headers::type_at(file, at)) {
        let symbology = words::word(file, at + 17);
        return Some(Display {
            group: words::word(file, at + 14),
            index: words::word(file, at + 15),
            properties: words::word(file, at + 16),
            style: symbology % 8,
            weight: symbology / 8 % 32,
            colour: symbology / 256,
        });
    }
    None
}

// A number that only some types have.
fn number_if(present: bool, value: usize) -> Option<usize>
    ensures { result ≡ number_if present value }
{
    present.then_some(value)
}

// The name words of a cell.
fn name_at(file: &[u8], at: usize) -> Option<Name>
    requires { at < length file.now / 2 }
    ensures { result ≡ name_words (words file.now) at }
{
    let t = headers::type_at(file, at);
    if t == 1 {
        return Some(Name {
            first: words::word(file, at + 16),
            second: words::word(file, at + 17),
        });
    }
    if t == 2 {
        return Some(Name {
            first: words::word(file, at + 19),
            second: words::word(file, at + 20),
        });
    }
    None
}

// All that a view gives of the element at a place.
fn element_at(file: &[u8], at: usize, depth: usize, above: Above) -> Element
    requires { at < length file.now / 2 }
    ensures { result ≡ element_view (words file.now) at depth above }
{
    let w = words::word(file, at);
    let t = headers::type_at(file, at);
    let word_18 = words::word(file, at + 18);
    Element {
        level: w % 64,
        c: w / 128 % 2 == 1,
        kind: t,
        deleted: w / 32768 % 2 == 1,
        size: headers::size_at(file, at),
        depth,
        above,
        range: range_at(file, at),
        display: display_at(file, at),
        points: number_if(kinds::is_pointed(t), word_18),
        name: name_at(file, at),
        total: number_if(kinds::is_header(t), word_18),
        count: number_if(kinds::is_counted(t), words::word(file, at + 19)),
    }
}

// A view of the element at a place whose depth and direct header are known; 13 where no word stands.
pub fn element_in(file: &[u8], at: usize, depth: usize, above: Above) -> Result<Element, Refusal>
    ensures { result ≡ element_in (words file.now) at depth above }
{
    if at < file.len() / 2 {
        return Ok(element_at(file, at, depth, above));
    }
    Err(Refusal {
        number: 13,
        place: 0,
    })
}

// A view of the element at a place.
pub fn view_at(file: &[u8], dim: usize, place: usize) -> Result<Element, Refusal>
    ensures { result ≡ view_of dim file.now place }
{
    let spot = spotted_at(file, dim, place)?;
    Ok(element_at(file, place, spot.depth, spot.above))
}
