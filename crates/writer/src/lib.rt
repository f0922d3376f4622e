// Writing an element of type 3, 4, 6 or 11 into a lent buffer: the checks, then the words one after another. The words
// and the checks are those of the crate fields; specs/Writing has the answer and what the buffer then holds.

#![tactic(auto)]

ghost use Rattle.std.specs.Prelude.{◌≡◌, true, cond, map, ◌+◌, ◌*◌, ◌/◌, ◌<◌, ◌≤◌, length};
ghost use Rattle.words.specs.Words.{unsigned};
ghost use Rattle.kinds.specs.Kinds.{is_pointed};
ghost use Rattle.limits.specs.Limits.{dim_ok};
ghost use Rattle.fields.specs.Words.{longs, first_word, range_longs, display_words, header_words, count_words, size_of, element_words};
ghost use Rattle.fields.specs.Faults.{fields_ok, write_fault};
ghost use Rattle.writer.specs.Writing.{laid, Writes, header_fits, header_laid};

use refusals::Refusal;

// Word 0.
fn first_word(fields: fields::Fields) -> usize
    requires { (fields.level < 64) × (fields.kind < 128) }
    ensures { result ≡ first_word fields }
{
    fields.level
        + 128 * kinds::pick(fields.c, 1, 0)
        + 256 * fields.kind
        + 32768 * kinds::pick(fields.deleted, 1, 0)
}

// Words 2 to 13.
fn put_range(out: &mut [u8], fields: fields::Fields)
    requires { (28 ≤ length out.old) × (fields_ok fields ≡ true) }
    ensures { out.new ≡ laid out.old 2 (longs (range_longs fields)) }
{
    ranges::put_coordinate(out, 2, fields.low_x as i32);
    ranges::put_coordinate(out, 4, fields.low_y as i32);
    ranges::put_coordinate(out, 6, fields.low_z as i32);
    ranges::put_coordinate(out, 8, fields.high_x as i32);
    ranges::put_coordinate(out, 10, fields.high_y as i32);
    ranges::put_coordinate(out, 12, fields.high_z as i32);
}

// Words 14 to 17.
fn put_display(out: &mut [u8], fields: fields::Fields)
    requires { (36 ≤ length out.old) × (fields_ok fields ≡ true) }
    ensures { out.new ≡ laid out.old 14 (display_words fields) }
{
    let symbology = fields.style + 8 * fields.weight + 256 * fields.colour;
    words::put_word(out, 14, fields.group as u16);
    words::put_word(out, 15, fields.index as u16);
    words::put_word(out, 16, fields.properties as u16);
    words::put_word(out, 17, symbology as u16);
}

// Words 0 to 17.
fn put_header_words(out: &mut [u8], fields: fields::Fields, size: usize)
    requires in_bounds { (36 ≤ length out.old) × ((2 ≤ size) × (size ≤ 65535)) }
    requires kind_bound { (fields.kind < 128) × (fields_ok fields ≡ true) }
    ensures { out.new ≡ laid out.old 0 (header_words fields size) }
{
    words::put_word(out, 0, first_word(fields) as u16);
    words::put_word(out, 1, (size - 2) as u16);
    put_range(out, fields);
    put_display(out, fields);
}

// Whether a buffer of `room` bytes can take words 0 to 17.
fn header_fits(fields: fields::Fields, size: usize, room: usize) -> bool
    ensures { result ≡ header_fits fields size room }
{
    if room < 36 {
        return false;
    }
    if size < 2 {
        return false;
    }
    if 65535 < size {
        return false;
    }
    if 127 < fields.kind {
        return false;
    }
    fields::fields_ok(fields)
}

// Words 0 to 17 of an element of a size, from the buffer's start on, where it can take them.
pub fn put_header(out: &mut [u8], fields: fields::Fields, size: usize)
    ensures { out.new ≡ header_laid fields size out.old }
{
    if header_fits(fields, size, out.len()) {
        put_header_words(out, fields, size);
    }
}

// The place of the points: behind word 18 of the types with N, else behind the header.
fn points_place(kind: usize) -> usize
    ensures { result ≡ cond (is_pointed kind) 19 18 }
{
    if kinds::is_pointed(kind) { 19 } else { 18 }
}

// Word 18 of the types with N, with so many coordinates.
fn put_count(out: &mut [u8], kind: usize, dim: usize, points: usize)
    requires in_bounds { (38 ≤ length out.old) × (points / dim < 65536) }
    requires dim_value { dim_ok dim ≡ true }
    ensures { out.new ≡ laid out.old 18 (count_words kind (points / dim)) }
{
    if kinds::is_pointed(kind) {
        let n = fields::point_count(dim, points);
        words::put_word(out, 18, n as u16);
    }
}

// The coordinates as longs, from a place on.
fn put_points(out: &mut [u8], at: usize, points: &[i32])
    requires { at + 2 * length points.now ≤ length out.old / 2 }
    ensures { out.new ≡ laid out.old at (longs (map unsigned points.now)) }
{
    for (k, &point) in points.iter().enumerate() {
        words::put_signed_long(out, at + 2 * k, point);
    }
}

// All words, from the buffer's start on. Their number.
fn put_element(
    dim: usize,
    fields: fields::Fields,
    points: &[i32],
    tail: &[u8],
    out: &mut [u8],
) -> usize
    requires { write_fault dim fields points.now tail.now (length out.old) ≡ 0 }
    ensures size { result ≡ size_of dim fields points.now tail.now }
    ensures bytes { out.new ≡ laid out.old 0 (element_words dim fields points.now tail.now) }
{
    let start = points_place(fields.kind);
    let end = start + 2 * points.len();
    let size = end + tail.len() / 2;
    put_header_words(out, fields, size);
    put_count(out, fields.kind, dim, points.len());
    put_points(out, start, points);
    copies::copy_in(out, 2 * end, tail);
    size
}

// An element of type 3, 4, 6 or 11, written from the buffer's start on: its header fields, its points as one list of
// coordinates, its tail. The answer holds the number of words. Where it is refused the buffer stays as it was.
pub fn write(
    fields: fields::Fields,
    points: &[i32],
    tail: &[u8],
    dim: usize,
    out: &mut [u8],
) -> Result<usize, Refusal>
    ensures { Writes dim fields points.now tail.now out.old result out.new }
{
    let fault = fields::write_fault(dim, fields, points, tail, out.len());
    if fault != 0 {
        return Err(Refusal {
            number: fault,
            place: 0,
        });
    }
    Ok(put_element(dim, fields, points, tail, out))
}
