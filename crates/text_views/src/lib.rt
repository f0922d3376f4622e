// What is read of the text at a place of an accepted file: its numbers, its characters as a part of the file, its
// enter-data fields by number. Definitions: specs/TextViews.

#![tactic(auto)]

ghost use Rattle.std.specs.Prelude.{◌≡◌, ◌/◌, ◌<◌, length};
ghost use Rattle.words.specs.Words.{words};
ghost use Rattle.texts.specs.Texts.{counts_at};
ghost use Rattle.text_views.specs.TextViews.{origin_at, odd_at, text_at, field_justification, text_in, characters_at, field_in, text_of, characters_of, character_bytes, field_of};

use places::spotted_at;
use refusals::Refusal;
use turns::Turn;

#[derive(Clone, Copy)]
pub enum Origin {
    Flat { x: i64, y: i64 },
    Solid { x: i64, y: i64, z: i64 },
}

// The numbers of a text: font, justification, length and height multipliers, turn and origin; how many characters and
// fields it has; the odd last byte.
#[derive(Clone, Copy)]
pub struct Text {
    pub font: u8,
    pub justification: u8,
    pub length: u32,
    pub height: u32,
    pub turn: Turn,
    pub origin: Origin,
    pub characters: u8,
    pub fields: u8,
    pub odd: Option<u8>,
}

// The characters of a text, from a byte of the file on.
#[derive(Clone, Copy)]
pub struct Characters {
    pub start: usize,
    pub length: usize,
}

// An enter-data field: the first of its characters, counted from 1, how many they are, and its justification.
#[derive(Clone, Copy)]
pub struct Field {
    pub first: u8,
    pub length: u8,
    pub justification: i64,
}

// The origin of the text at a place.
fn origin_at(file: &[u8], dim: usize, at: usize) -> Origin
    requires { at < length file.now / 2 }
    ensures { result ≡ origin_at dim (words file.now) at }
{
    if dim == 2 {
        return Origin::Flat {
            x: words::signed_long(file, at + 25),
            y: words::signed_long(file, at + 27),
        };
    }
    Origin::Solid {
        x: words::signed_long(file, at + 31),
        y: words::signed_long(file, at + 33),
        z: words::signed_long(file, at + 35),
    }
}

// The odd last byte of the text at a place, by the word of its counts.
fn odd_at(file: &[u8], dim: usize, at: usize, counts: usize) -> Option<u8>
    requires { (at < length file.now / 2) × (counts ≡ counts_at dim (words file.now) at) }
    ensures { result ≡ odd_at dim (words file.now) at }
{
    let n = counts % 256 + 3 * (counts / 256);
    if n % 2 == 0 {
        return None;
    }
    let first = 2 * (at + texts::counts_word(dim) + 1);
    Some(texts::byte(file, first + n) as u8)
}

// The numbers of the text at a place.
fn text_from(file: &[u8], dim: usize, at: usize) -> Text
    requires { at < length file.now / 2 }
    ensures { result ≡ text_at dim (words file.now) at }
{
    let style = words::word(file, at + 18);
    let counts = words::word(file, at + texts::counts_word(dim));
    Text {
        font: (style % 256) as u8,
        justification: (style / 256) as u8,
        length: words::long(file, at + 19) as u32,
        height: words::long(file, at + 21) as u32,
        turn: turns::turn_at(file, dim, at + 23),
        origin: origin_at(file, dim, at),
        characters: (counts % 256) as u8,
        fields: (counts / 256) as u8,
        odd: odd_at(file, dim, at, counts),
    }
}

// The justification of a field by its byte.
fn field_justification(byte: usize) -> i64
    requires { byte < 256 }
    ensures { result ≡ field_justification byte }
{
    if byte == 255 {
        return -1;
    }
    byte as i64
}

// The numbers of the element at a place of a judged file, where it is a text; else 6.
pub fn text_in(file: &[u8], dim: usize, at: usize) -> Result<Text, Refusal>
    ensures { result ≡ text_in dim (words file.now) at }
{
    if headers::type_at(file, at) != 17 {
        return Err(Refusal {
            number: 6,
            place: at,
        });
    }
    Ok(text_from(file, dim, at))
}

// Where its characters stand.
pub fn characters_in(file: &[u8], dim: usize, at: usize) -> Result<Characters, Refusal>
    ensures { result ≡ characters_at dim (words file.now) at }
{
    if headers::type_at(file, at) != 17 {
        return Err(Refusal {
            number: 6,
            place: at,
        });
    }
    let place = at + texts::counts_word(dim);
    Ok(Characters {
        start: 2 * (place + 1),
        length: words::word(file, place) % 256,
    })
}

// Its field k, from 0; 13 where there is none.
pub fn field_in(file: &[u8], dim: usize, at: usize, k: usize) -> Result<Field, Refusal>
    ensures { result ≡ field_in dim (words file.now) at k }
{
    if headers::type_at(file, at) != 17 {
        return Err(Refusal {
            number: 6,
            place: at,
        });
    }
    let place = at + texts::counts_word(dim);
    let counts = words::word(file, place);
    if counts / 256 <= k {
        return Err(Refusal {
            number: 13,
            place: 0,
        });
    }
    let j = 2 * (place + 1) + counts % 256 + 3 * k;
    Ok(Field {
        first: texts::byte(file, j) as u8,
        length: texts::byte(file, j + 1) as u8,
        justification: field_justification(texts::byte(file, j + 2)),
    })
}

// The numbers of the text at a place of a file.
pub fn text_at(file: &[u8], dim: usize, place: usize) -> Result<Text, Refusal>
    ensures { result ≡ text_of dim file.now place }
{
    spotted_at(file, dim, place)?;
    text_in(file, dim, place)
}

// Where its characters stand.
pub fn characters_answer(file: &[u8], dim: usize, place: usize) -> Result<Characters, Refusal>
    ensures { result ≡ characters_of dim file.now place }
{
    spotted_at(file, dim, place)?;
    characters_in(file, dim, place)
}

// Its characters, as that part of the file; empty where refused.
pub fn characters_at(file: &[u8], dim: usize, place: usize) -> &[u8]
    ensures { result.now ≡ character_bytes dim file.now place }
{
    match characters_answer(file, dim, place) {
        Ok(characters) => {
            let end = characters.start + characters.length;
            &file[characters.start..end]
        }
        Err(_) => &file[..0],
    }
}

// Its field k, from 0.
pub fn field_at(file: &[u8], dim: usize, place: usize, k: usize) -> Result<Field, Refusal>
    ensures { result ≡ field_of dim file.now place k }
{
    spotted_at(file, dim, place)?;
    field_in(file, dim, place, k)
}
