// The numbers of a text in a lent slice. Definitions: specs/Numbers.

#![tactic(auto)]

ghost use Rattle.std.specs.Prelude.{◌≡◌, ◌+◌, ◌≤◌, length};
ghost use Rattle.std.proofs.lemmas.List.Edits.{sets};
ghost use Rattle.text_numbers.specs.Numbers.{origin_numbers, odd_number, first_numbers, last_numbers, put_text};

use text_views::{Origin, Text};

// The origin.
fn origin_numbers(origin: Origin) -> [i64; 3]
    ensures { result ≡ origin_numbers origin }
{
    match origin {
        Origin::Flat { x, y } => [x, y, 0],
        Origin::Solid { x, y, z } => [x, y, z],
    }
}

// The odd last byte.
fn odd_number(odd: Option<u8>) -> i64
    ensures { result ≡ odd_number odd }
{
    match odd {
        None => -1,
        Some(value) => value as i64,
    }
}

// The numbers before the turn.
fn first_numbers(text: Text) -> [i64; 4]
    ensures { result ≡ first_numbers text }
{
    [
        text.font as i64,
        text.justification as i64,
        text.length as i64,
        text.height as i64,
    ]
}

// The numbers behind the origin.
fn last_numbers(start: u32, text: Text) -> [i64; 4]
    ensures { result ≡ last_numbers start text }
{
    [
        text.characters as i64,
        text.fields as i64,
        odd_number(text.odd),
        start as i64,
    ]
}

// Numbers, from a place of a slice on.
fn put_numbers(out: &mut [i64], at: usize, numbers: &[i64])
    requires { at + length numbers.now ≤ length out.old }
    ensures { out.new ≡ sets out.old at numbers.now }
{
    out[at..at + numbers.len()].copy_from_slice(numbers);
}

// The numbers of a text whose characters begin at a byte of the file, from a place of a slice on; a slice with no room for them
// stays.
pub fn put_text(out: &mut [i64], at: usize, start: u32, text: Text)
    ensures { out.new ≡ put_text out.old at start text }
{
    if out.len() < 15 {
        return;
    }
    if out.len() - 15 < at {
        return;
    }
    put_numbers(out, at, &first_numbers(text));
    put_numbers(out, at + 4, &turns::turn_numbers(text.turn));
    put_numbers(out, at + 8, &origin_numbers(text.origin));
    put_numbers(out, at + 11, &last_numbers(start, text));
}
