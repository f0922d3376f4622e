// The lines that celllist, textlist and platelist print, each from its fields, written to the front of a lent buffer. Defined in
// specs/Lines, specs/Texts and specs/Plates.

#![tactic(auto)]

ghost use Rattle.std.specs.Prelude.{◌+◌, ◌*◌, ◌<◌, ◌≤◌, ◌≡◌, [], ◌∷◌, length, take};
ghost use Rattle.listing.specs.Lines.{decimal, field, state, last_field, element_line, heading_line, refused_line, end_line, WritesLine};
ghost use Rattle.listing.specs.Texts.{hexadecimal, prints, escape, escaped, text_line, text_room, text_heading};
ghost use Rattle.listing.specs.Plates.{counts, plate_line};
ghost use Rattle.listing.specs.Puts.{Puts};

// One byte.
fn put_byte(buf: &mut [u8], at: usize, b: u8) -> usize
    requires { at + 1 ≤ length buf.old }
    ensures { Puts buf.old at (b ∷ []) buf.new result }
{
    buf[at] = b;
    at + 1
}

// The line feed that ends a line.
fn put_line_feed(buf: &mut [u8], at: usize) -> usize
    requires { at + 1 ≤ length buf.old }
    ensures { Puts buf.old at (10 ∷ []) buf.new result }
{
    put_byte(buf, at, b'\n')
}

// The bytes of another slice.
fn put_bytes(buf: &mut [u8], at: usize, src: &[u8]) -> usize
    requires { at + length src.now ≤ length buf.old }
    ensures { Puts buf.old at src.now buf.new result }
{
    let end = at + src.len();
    buf[at..end].copy_from_slice(src);
    end
}

// A number in decimal digits, those of its tenth part first: at most 20 calls deep.
fn put_number(buf: &mut [u8], at: usize, n: usize) -> usize
    requires { at + 20 ≤ length buf.old }
    ensures puts { Puts buf.old at (decimal n) buf.new result }
    ensures upper_bound { result ≤ at + 20 }
{
    if n < 10 {
        return put_byte(buf, at, b'0' + n as u8);
    }
    let next = put_number(buf, at, n / 10);
    put_byte(buf, next, b'0' + (n % 10) as u8)
}

// A number and the space after it.
fn put_field(buf: &mut [u8], at: usize, n: usize) -> usize
    requires { at + 21 ≤ length buf.old }
    ensures puts { Puts buf.old at (field n) buf.new result }
    ensures upper_bound { result ≤ at + 21 }
{
    let next = put_number(buf, at, n);
    put_byte(buf, next, b' ')
}

// The state of an element.
fn put_state(buf: &mut [u8], at: usize, deleted: bool) -> usize
    requires { at + 4 ≤ length buf.old }
    ensures puts { Puts buf.old at (state deleted) buf.new result }
    ensures upper_bound { result ≤ at + 4 }
{
    if deleted {
        return put_bytes(buf, at, b"dead");
    }
    put_bytes(buf, at, b"live")
}

// A name after a space, its first six letters where it has more; nothing where it is empty.
fn put_name(buf: &mut [u8], at: usize, name: &[u8]) -> usize
    requires { at + 7 ≤ length buf.old }
    ensures puts { Puts buf.old at (last_field (take 6 name.now)) buf.new result }
    ensures upper_bound { result ≤ at + 7 }
{
    if name.len() == 0 {
        return at;
    }
    let next = put_byte(buf, at, b' ');
    if 6 < name.len() {
        return put_bytes(buf, next, &name[..6]);
    }
    put_bytes(buf, next, name)
}

// A hexadecimal digit.
fn hex_digit(d: u8) -> u8
    requires { d < 16 }
    ensures { result ≡ hexadecimal d }
{
    if d < 10 { b'0' + d } else { b'a' - 10 + d }
}

// Whether a byte prints.
fn is_printed(c: u8) -> bool
    ensures { result ≡ prints c }
{
    if c < b' ' {
        return false;
    }
    c <= b'~'
}

// A character of a text.
fn put_character(buf: &mut [u8], at: usize, c: u8) -> usize
    requires { at + 4 ≤ length buf.old }
    ensures puts { Puts buf.old at (escape c) buf.new result }
    ensures upper_bound { result ≤ at + 4 }
{
    if c == b'\\' {
        return put_bytes(buf, at, b"\\\\");
    }
    if is_printed(c) {
        return put_byte(buf, at, c);
    }
    let next = put_bytes(buf, at, b"\\x");
    let next = put_byte(buf, next, hex_digit(c / 16));
    put_byte(buf, next, hex_digit(c % 16))
}

// The characters of a text.
fn put_characters(buf: &mut [u8], at: usize, characters: &[u8]) -> usize
    requires { at + 4 * length characters.now ≤ length buf.old }
    ensures puts { Puts buf.old at (escaped characters.now) buf.new result }
    ensures upper_bound { result ≤ at + 4 * length characters.now }
{
    let mut next = at;
    for &c in characters {
        next = put_character(buf, next, c);
    }
    next
}

// The characters of a text after a space; nothing where there are none.
fn put_text(buf: &mut [u8], at: usize, characters: &[u8]) -> usize
    requires { at + 1 + 4 * length characters.now ≤ length buf.old }
    ensures puts { Puts buf.old at (last_field (escaped characters.now)) buf.new result }
    ensures upper_bound { result ≤ at + 1 + 4 * length characters.now }
{
    if characters.len() == 0 {
        return at;
    }
    let next = put_byte(buf, at, b' ');
    put_characters(buf, next, characters)
}

// One element's line, and the number of its bytes. The buffer needs 100 bytes: with fewer nothing is written.
pub fn element_line(
    buf: &mut [u8],
    place: usize,
    depth: usize,
    kind: usize,
    size: usize,
    deleted: bool,
    name: &[u8],
) -> usize
    ensures { WritesLine 100 buf.old (element_line place depth kind size deleted name.now) buf.new result }
{
    if buf.len() < 100 {
        return 0;
    }
    let at = put_field(buf, 0, place);
    let at = put_field(buf, at, depth);
    let at = put_field(buf, at, kind);
    let at = put_field(buf, at, size);
    let at = put_state(buf, at, deleted);
    let at = put_name(buf, at, name);
    put_line_feed(buf, at)
}

// One text's line, and the number of its bytes. The buffer needs 48 bytes and four for each character: with fewer nothing
// is written.
pub fn text_line(
    buf: &mut [u8],
    place: usize,
    depth: usize,
    deleted: bool,
    characters: &[u8],
) -> usize
    ensures { WritesLine (text_room (length characters.now)) buf.old (text_line place depth deleted characters.now) buf.new result }
{
    if buf.len() < 48 {
        return 0;
    }
    if (buf.len() - 48) / 4 < characters.len() {
        return 0;
    }
    let at = put_field(buf, 0, place);
    let at = put_field(buf, at, depth);
    let at = put_state(buf, at, deleted);
    let at = put_text(buf, at, characters);
    put_line_feed(buf, at)
}

// The six counts of a plate, a space after each.
fn put_counts(
    buf: &mut [u8],
    at: usize,
    lines: usize,
    pointed: usize,
    texts: usize,
    curves: usize,
    headers: usize,
    others: usize,
) -> usize
    requires { at + 126 ≤ length buf.old }
    ensures puts { Puts buf.old at (counts lines pointed texts curves headers others) buf.new result }
    ensures upper_bound { result ≤ at + 126 }
{
    let next = put_field(buf, at, lines);
    let next = put_field(buf, next, pointed);
    let next = put_field(buf, next, texts);
    let next = put_field(buf, next, curves);
    let next = put_field(buf, next, headers);
    put_field(buf, next, others)
}

// One plate's line, and the number of its bytes. The buffer needs 175 bytes: with fewer nothing is written.
pub fn plate_line(
    buf: &mut [u8],
    place: usize,
    lines: usize,
    pointed: usize,
    texts: usize,
    curves: usize,
    headers: usize,
    others: usize,
    levels: usize,
    code: &[u8],
) -> usize
    ensures { WritesLine 175 buf.old (plate_line place lines pointed texts curves headers others levels code.now) buf.new result }
{
    if buf.len() < 175 {
        return 0;
    }
    let at = put_field(buf, 0, place);
    let at = put_counts(buf, at, lines, pointed, texts, curves, headers, others);
    let at = put_number(buf, at, levels);
    let at = put_name(buf, at, code);
    put_line_feed(buf, at)
}

// A line that has no fields, and the number of its bytes.
fn fixed_line(buf: &mut [u8], line: &[u8]) -> usize
    requires { length line.now ≤ 100 }
    ensures { WritesLine 100 buf.old line.now buf.new result }
{
    if buf.len() < 100 {
        return 0;
    }
    put_bytes(buf, 0, line)
}

// The heading of the elements' lines, and the number of its bytes. The buffer needs 100 bytes: with fewer nothing is
// written.
pub fn heading(buf: &mut [u8]) -> usize
    ensures { WritesLine 100 buf.old heading_line buf.new result }
{
    fixed_line(buf, b"PLACE DEPTH TYPE WORDS STATE NAME\n")
}

// The heading of the texts' lines, and the number of its bytes. The buffer needs 100 bytes: with fewer nothing is written.
pub fn text_heading(buf: &mut [u8]) -> usize
    ensures { WritesLine 100 buf.old text_heading buf.new result }
{
    fixed_line(buf, b"PLACE DEPTH STATE TEXT\n")
}

// The line of a refused file, and the number of its bytes. The buffer needs 100 bytes: with fewer nothing is written.
pub fn refused_line(buf: &mut [u8], number: usize, place: usize) -> usize
    ensures { WritesLine 100 buf.old (refused_line number place) buf.new result }
{
    if buf.len() < 100 {
        return 0;
    }
    let at = put_bytes(buf, 0, b"REFUSED ");
    let at = put_field(buf, at, number);
    let at = put_number(buf, at, place);
    put_line_feed(buf, at)
}

// The last line, and the number of its bytes. The buffer needs 100 bytes: with fewer nothing is written.
pub fn end_line(buf: &mut [u8], marker: usize) -> usize
    ensures { WritesLine 100 buf.old (end_line marker) buf.new result }
{
    if buf.len() < 100 {
        return 0;
    }
    let at = put_bytes(buf, 0, b"END ");
    let at = put_number(buf, at, marker);
    put_line_feed(buf, at)
}
