// Opening a session on a file's buffer and a journal's: the lengths, the marker and the dimension, the file's own
// refusals, and what starts at a place of the used part. Nothing is changed here. Definitions: specs/Opening;
// proofs/Accepted: what is found is an element of the accepted file.
//
// What the calls of a session share: a refusal, and header places as the journal's numbers. Definitions: specs/Steps; of
// the ways out of a step the laws are in proofs/.

#![tactic(auto)]

ghost use Rattle.std.specs.Prelude.{◌≡◌, ◌&&◌, ◌-◌, ◌%◌, ◌≤◌, length};
ghost use Rattle.words.specs.Words.{words};
ghost use Rattle.limits.specs.Limits.{dim_ok, used_ok};
ghost use Rattle.files.specs.Judge.{top_of};
ghost use Rattle.edits.specs.Allowed.{or_else, unless};
ghost use Rattle.edits.specs.Calls.{ends_in_marker, used_words, file_fault};
ghost use Rattle.opening.specs.Opening.{opened_by, OpenedAs};
ghost use Rattle.opening.specs.Steps.{number_of, above_at};

use journals::TOP;
use places::{Above, Placed};
use refusals::Refusal;

// Whether the last word of a used file is 65535.
fn ends_in_marker(used: &[u8]) -> bool
    ensures { result ≡ ends_in_marker (words used.now) }
{
    let n = used.len() / 2;
    if n < 1 {
        return false;
    }
    words::word(used, n - 1) == 65535
}

// Whether two buffers may be lent, and the used file ends in its marker.
fn buffers_ok(file: &[u8], used: usize, journal_len: usize, jused: usize) -> bool
    ensures { result ≡ (used_ok (length file.now) used && (used_ok journal_len jused && ends_in_marker (used_words file.now used))) }
{
    if !limits::used_ok(file.len(), used) {
        return false;
    }
    if !limits::used_ok(journal_len, jused) {
        return false;
    }
    ends_in_marker(&file[..used])
}

// What judging the used file answers, with what starts at a place; its marker is due at the last used word.
fn open_file(used: &[u8], dim: usize, place: usize) -> Result<Placed, Refusal>
    requires { (length used.now % 2 ≡ 0) × ((2 ≤ length used.now) × (length used.now ≤ 1048576)) }
    ensures { result ≡ opened_by (or_else (unless (dim_ok dim) 1) (file_fault (top_of dim (words used.now)) (length (words used.now) - 1))) (words used.now) place }
{
    let last = used.len() / 2 - 1;
    let opened = places::placed_at(used, dim, place)?;
    if opened.marker != last {
        return Err(refused(1));
    }
    Ok(opened)
}

// Opens a session on a file's buffer and a journal's, by their used lengths, and finds what starts at a place.
pub fn open_at(
    file: &[u8],
    used: usize,
    journal_len: usize,
    jused: usize,
    dim: usize,
    place: usize,
) -> Result<Placed, Refusal>
    ensures { OpenedAs dim file.now used journal_len jused place result }
{
    if !buffers_ok(file, used, journal_len, jused) {
        return Err(refused(1));
    }
    open_file(&file[..used], dim, place)
}

// A refusal at place 0.
pub fn refused(number: usize) -> Refusal
    ensures { result ≡ record { number = number; place = 0 } }
{
    Refusal { number, place: 0 }
}

// A header place as the number of its long.
pub fn header_number(header: Above) -> usize
    ensures { result ≡ number_of header }
{
    match header {
        Above::Top => TOP,
        Above::Under { place } => place,
    }
}

// The header place of a record.
pub fn header_at(number: usize) -> Above
    ensures { result ≡ above_at number }
{
    if number == TOP {
        return Above::Top;
    }
    Above::Under { place: number }
}
