// What the C interface's functions that write an element have in common: the header fields as a slice of numbers, and the
// answer as numbers. What they are handed and leave is in specs/Writing, the laws of it in proofs/Writing.

#![tactic(auto)]

ghost use Rattle.std.specs.Prelude.{◌≡◌, length};
ghost use Rattle.answers.specs.Answers.{Replied};
ghost use Rattle.write_answers.specs.Writing.{natural, natural_at, fields_given, fields_of, given_in, cut_reply};

use refusals::Refusal;

// A number that is not negative; any other is none that a writer takes.
pub fn natural(v: i64) -> usize
    ensures { result ≡ natural v }
{
    if v < 0 { 4294967296 } else { v as usize }
}

// The same of number i of a slice; 0 where there is none.
fn natural_at(numbers: &[i64], i: usize) -> usize
    ensures { result ≡ natural_at numbers.now i }
{
    if i < numbers.len() {
        return natural(numbers[i]);
    }
    0
}

// Whether a slice is header fields.
fn fields_given(fields: &[i64]) -> bool
    ensures { result ≡ fields_given fields.now }
{
    if fields.len() != 16 {
        return false;
    }
    if 1 < natural_at(fields, 2) {
        return false;
    }
    natural_at(fields, 3) <= 1
}

// The header fields of a slice.
fn fields_of(fields: &[i64]) -> fields::Fields
    requires { length fields.now ≡ 16 }
    ensures { result ≡ fields_of fields.now }
{
    fields::Fields {
        kind: natural_at(fields, 0),
        level: natural_at(fields, 1),
        c: natural_at(fields, 2) == 1,
        deleted: natural_at(fields, 3) == 1,
        low_x: fields[4],
        low_y: fields[5],
        low_z: fields[6],
        high_x: fields[7],
        high_y: fields[8],
        high_z: fields[9],
        group: natural_at(fields, 10),
        index: natural_at(fields, 11),
        properties: natural_at(fields, 12),
        style: natural_at(fields, 13),
        weight: natural_at(fields, 14),
        colour: natural_at(fields, 15),
    }
}

// The header fields of a slice, where it is such.
pub fn fields_in(fields: &[i64]) -> Option<fields::Fields>
    ensures { result ≡ given_in fields.now }
{
    if !fields_given(fields) {
        return None;
    }
    Some(fields_of(fields))
}

// The number of words; of a refusal its number and place as one number, and nothing written. 1 where the slice is too short.
pub fn put_written(out: &mut [usize], answer: Result<usize, Refusal>) -> usize
    ensures { Replied 1 (cut_reply answer) out.old result out.new }
{
    if out.len() < 1 {
        return 1;
    }
    match answer {
        Ok(words) => {
            out[0] = words;
            0
        }
        Err(refusal) => refusal.number % 256 + 256 * (refusal.place % 72057594037927936),
    }
}
