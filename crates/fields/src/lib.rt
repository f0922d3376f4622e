// The header fields of an element of type 3, 4, 6 or 11, and the checks of what is handed to the writer, in their
// order. The definitions are in specs/: Words (an element's words), Faults (the checks).

#![tactic(auto)]

ghost use Rattle.std.specs.Prelude.{◌≡◌, ◌/◌, true, cond, length};
ghost use Rattle.limits.specs.Limits.{dim_ok};
ghost use Rattle.kinds.specs.Kinds.{fixed_part};
ghost use Rattle.elements.specs.Attributes.{linkages_ok};
ghost use Rattle.fields.specs.Words.{range_coordinates, points_in, size_of, element_words};
ghost use Rattle.fields.specs.Faults.{each_coordinate, is_written, words_ok, symbology_ok, fields_ok, points_fit, arguments_ok, point_number_ok, tail_ok, write_fault};

// All header fields of an element; its size and N follow from its points and its tail.
#[derive(Clone, Copy)]
pub struct Fields {
    pub kind: usize,
    pub level: usize,
    pub c: bool,
    pub deleted: bool,
    pub low_x: i64,
    pub low_y: i64,
    pub low_z: i64,
    pub high_x: i64,
    pub high_y: i64,
    pub high_z: i64,
    pub group: usize,
    pub index: usize,
    pub properties: usize,
    pub style: usize,
    pub weight: usize,
    pub colour: usize,
}

// 1: the types that are written.
fn kind_ok(kind: usize) -> bool
    ensures { result ≡ is_written kind }
{
    match kind {
        3 | 6 | 11 => true,
        4 => true,
        _ => false,
    }
}

// 1: the coordinates of the range.
fn range_ok(fields: Fields) -> bool
    ensures { result ≡ each_coordinate (range_coordinates fields) }
{
    if !ranges::is_coordinate(fields.low_x) {
        return false;
    }
    if !ranges::is_coordinate(fields.low_y) {
        return false;
    }
    if !ranges::is_coordinate(fields.low_z) {
        return false;
    }
    if !ranges::is_coordinate(fields.high_x) {
        return false;
    }
    if !ranges::is_coordinate(fields.high_y) {
        return false;
    }
    ranges::is_coordinate(fields.high_z)
}

// 1: the fields of a word each.
fn words_ok(fields: Fields) -> bool
    ensures { result ≡ words_ok fields }
{
    if 65535 < fields.group {
        return false;
    }
    if 65535 < fields.index {
        return false;
    }
    if 65535 < fields.properties {
        return false;
    }
    true
}

// 1: the fields of the symbology word.
fn symbology_ok(fields: Fields) -> bool
    ensures { result ≡ symbology_ok fields }
{
    if 7 < fields.style {
        return false;
    }
    if 31 < fields.weight {
        return false;
    }
    if 255 < fields.colour {
        return false;
    }
    true
}

// 1: all fields but the type.
pub fn fields_ok(fields: Fields) -> bool
    ensures { result ≡ fields_ok fields }
{
    if 63 < fields.level {
        return false;
    }
    if !range_ok(fields) {
        return false;
    }
    if !words_ok(fields) {
        return false;
    }
    symbology_ok(fields)
}

// How many points so many coordinates are; 0 for what is no dimension.
pub fn point_count(dim: usize, n: usize) -> usize
    ensures { result ≡ cond (dim_ok dim) (n / dim) 0 }
{
    if dim == 2 {
        return n / 2;
    }
    if dim == 3 {
        return thirds::third(n);
    }
    0
}

// 1: the number of coordinates.
fn points_fit(dim: usize, kind: usize, n: usize) -> bool
    requires { dim_ok dim ≡ true }
    ensures { result ≡ points_fit dim kind n }
{
    if kind == 3 {
        return n == 2 * dim;
    }
    let count = point_count(dim, n);
    n - dim * count == 0
}

// 1: everything that is handed in, by its numbers.
fn arguments_ok(dim: usize, fields: Fields, points: usize, tail: usize) -> bool
    ensures { result ≡ arguments_ok dim fields points tail }
{
    if !limits::dim_ok(dim) {
        return false;
    }
    if !kind_ok(fields.kind) {
        return false;
    }
    if !fields_ok(fields) {
        return false;
    }
    if !points_fit(dim, fields.kind, points) {
        return false;
    }
    tail % 2 == 0
}

// 7: N, of so many coordinates.
fn point_number_ok(dim: usize, kind: usize, points: usize) -> bool
    requires { dim_ok dim ≡ true }
    ensures { result ≡ point_number_ok kind (points / dim) }
{
    if !kinds::is_pointed(kind) {
        return true;
    }
    let n = point_count(dim, points);
    if n < 2 {
        return false;
    }
    n <= 101
}

// The size of the fixed part, in words, with so many coordinates.
fn fixed_words(dim: usize, kind: usize, points: usize) -> usize
    requires dim_value { (dim_ok dim ≡ true) × ((is_written kind ≡ true) × (points_fit dim kind points ≡ true)) }
    requires dim_value_2 { point_number_ok kind (points / dim) ≡ true }
    ensures { result ≡ fixed_part dim kind (points / dim) }
{
    let n = point_count(dim, points);
    kinds::fixed_part(dim, kind, n as u16)
}

// The size, in words.
fn size_of(dim: usize, fields: Fields, points: &[i32], tail: &[u8]) -> usize
    requires tail_value { arguments_ok dim fields (length points.now) (length tail.now) ≡ true }
    requires points_value { point_number_ok fields.kind (points_in dim points.now) ≡ true }
    ensures { result ≡ size_of dim fields points.now tail.now }
{
    fixed_words(dim, fields.kind, points.len()) + tail.len() / 2
}

// 11: the attribute part of a tail whose first word has the attribute index `first`, where A is set. It begins not before the
// tail nor after its end, and linkages fill it.
pub fn tail_ok(fields: Fields, first: usize, tail: &[u8]) -> bool
    ensures { result ≡ tail_ok fields first tail.now }
{
    if fields.properties / 2048 % 2 == 0 {
        return true;
    }
    if fields.index < first {
        return false;
    }
    let end = tail.len() / 2;
    if end < fields.index - first {
        return false;
    }
    linkages::linkages_fill(tail, fields.index - first, end)
}

// 11: the same of the element; the attribute index counts from word 16.
fn linkages_ok(dim: usize, fields: Fields, points: &[i32], tail: &[u8]) -> bool
    requires tail_value { arguments_ok dim fields (length points.now) (length tail.now) ≡ true }
    requires points_value { point_number_ok fields.kind (points_in dim points.now) ≡ true }
    ensures { result ≡ linkages_ok dim (element_words dim fields points.now tail.now) 0 }
{
    let first = fixed_words(dim, fields.kind, points.len()) - 16;
    tail_ok(fields, first, tail)
}

// The number of the first fault, 0 where there is none, with a buffer of `room` bytes.
pub fn write_fault(dim: usize, fields: Fields, points: &[i32], tail: &[u8], room: usize) -> usize
    ensures { result ≡ write_fault dim fields points.now tail.now room }
{
    if !arguments_ok(dim, fields, points.len(), tail.len()) {
        return 1;
    }
    if !point_number_ok(dim, fields.kind, points.len()) {
        return 7;
    }
    let size = size_of(dim, fields, points, tail);
    if 65535 < size {
        return 8;
    }
    if !linkages_ok(dim, fields, points, tail) {
        return 11;
    }
    if room < 2 * size {
        return 15;
    }
    0
}
