// A view as 32 signed numbers in a lent slice. Definitions: specs/Numbers.

#![tactic(auto)]

ghost use Rattle.std.specs.Prelude.{◌≡◌, map, ◌+◌, ◌≤◌, length};
ghost use Rattle.std.proofs.lemmas.List.Edits.{sets};
ghost use Rattle.view_numbers.specs.Numbers.{above_numbers, number_numbers, range_numbers, display_numbers, name_numbers, common_numbers, kind_numbers, as_signed, put_view};

use views::{Display, Name, Range};

// A number as a signed one.
fn as_signed(n: usize) -> i64
    ensures { result ≡ as_signed n }
{
    if n < 9223372036854775808 {
        return n as i64;
    }
    0
}

// Numbers as signed ones, from a place of a slice on.
fn put_signed(out: &mut [i64], at: usize, numbers: &[usize])
    requires { at + length numbers.now ≤ length out.old }
    ensures { out.new ≡ sets out.old at (map as_signed numbers.now) }
{
    for (k, &n) in numbers.iter().enumerate() {
        out[at + k] = as_signed(n);
    }
}

// The direct header.
fn above_numbers(above: places::Above) -> [usize; 2]
    ensures { result ≡ above_numbers above }
{
    match above {
        places::Above::Top => [0, 0],
        places::Above::Under { place } => [1, place],
    }
}

// A number that only some types have.
fn number_numbers(number: Option<usize>) -> [usize; 2]
    ensures { result ≡ number_numbers number }
{
    match number {
        None => [0, 0],
        Some(value) => [1, value],
    }
}

// Words 14 to 17.
fn display_numbers(display: Option<Display>) -> [usize; 7]
    ensures { result ≡ display_numbers display }
{
    match display {
        None => [0; 7],
        Some(display) => [
            1,
            display.group,
            display.index,
            display.properties,
            display.style,
            display.weight,
            display.colour,
        ],
    }
}

// The name words.
fn name_numbers(name: Option<Name>) -> [usize; 3]
    ensures { result ≡ name_numbers name }
{
    match name {
        None => [0, 0, 0],
        Some(name) => [1, name.first, name.second],
    }
}

// Numbers 0 to 7 of a view, from a place of a slice on.
fn put_common(out: &mut [i64], at: usize, element: views::Element)
    requires { at + 8 ≤ length out.old }
    ensures { out.new ≡ sets out.old at (map as_signed (common_numbers element)) }
{
    let c = kinds::pick(element.c, 1, 0);
    let deleted = kinds::pick(element.deleted, 1, 0);
    let own = [
        element.level,
        c,
        element.kind,
        deleted,
        element.size,
        element.depth,
    ];
    put_signed(out, at, &own);
    let above = element.above;
    put_signed(out, at + 6, &above_numbers(above));
}

// Numbers 8 to 14 of a view, the range, from a place of a slice on.
fn put_range(out: &mut [i64], at: usize, range: Option<Range>)
    requires { at + 7 ≤ length out.old }
    ensures { out.new ≡ sets out.old at (range_numbers range) }
{
    match range {
        None => put_signed(out, at, &[0; 7]),
        Some(range) => {
            out[at] = 1;
            out[at + 1] = range.low_x;
            out[at + 2] = range.low_y;
            out[at + 3] = range.low_z;
            out[at + 4] = range.high_x;
            out[at + 5] = range.high_y;
            out[at + 6] = range.high_z;
        }
    }
}

// Numbers 15 to 31 of a view, from a place of a slice on.
fn put_kind(out: &mut [i64], at: usize, place: usize, element: views::Element)
    requires { at + 17 ≤ length out.old }
    ensures { out.new ≡ sets out.old at (map as_signed (kind_numbers place element)) }
{
    let display = element.display;
    put_signed(out, at, &display_numbers(display));
    let points = element.points;
    put_signed(out, at + 7, &number_numbers(points));
    let name = element.name;
    put_signed(out, at + 9, &name_numbers(name));
    let total = element.total;
    put_signed(out, at + 12, &number_numbers(total));
    let count = element.count;
    put_signed(out, at + 14, &number_numbers(count));
    out[at + 16] = as_signed(place);
}

// The view of the element at a place, from a place of a slice on; a slice with no room for it stays.
pub fn put_view(out: &mut [i64], at: usize, place: usize, element: views::Element)
    ensures { out.new ≡ put_view out.old at place element }
{
    if out.len() < 32 {
        return;
    }
    if out.len() - 32 < at {
        return;
    }
    put_common(out, at, element);
    let range = element.range;
    put_range(out, at + 8, range);
    put_kind(out, at + 15, place, element);
}
