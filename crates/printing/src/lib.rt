// The listing of a 2D file from standard input: a line for each element, for each text or for each live cell, in file order, or
// the line of its refusal. The lines are those of the crates listing, lines, text_lines and plate_lines, and the order is that of
// walking::next; they are written some KiB at a time. Where a read or a write fails, standard error says so and lines are
// missing: a listing of elements or texts is whole where its last line is that of the end or of a refusal.

#![tactic(auto)]

ghost use Rattle.std.specs.Prelude.{◌≤◌, length};

use files::Accepted;
use refusals::Refusal;
use std::io::Read;

// What a listing has lines of.
#[derive(Clone, Copy)]
pub enum Listed {
    Elements,
    Texts,
    Plates,
}

// The bytes that are written at a time, at most, and those that a line may need: 48 and four for each of 255 characters.
const PART: usize = 16384;

const LINE: usize = 1068;

// The first n bytes of a part; false where not all of them are written.
fn print(out: &impl Print, part: &[u8], n: usize) -> bool
    requires { n ≤ length part.now }
{
    out.write_all(&part[..n]).is_ok()
}

// Where the next line begins in a part that has n bytes: behind them, or at the front where it might not fit there.
fn next_line(n: usize) -> usize
    ensures { result ≤ n }
{
    if n < PART - LINE { n } else { 0 }
}

// The n bytes of a part, if its next line begins at the front; false where not all of them are written.
fn print_full(out: &impl Print, part: &[u8], n: usize, next: usize) -> bool
    requires { n ≤ length part.now }
{
    if next == 0 {
        return print(out, part, n);
    }
    true
}

// The heading, into a part: where it ends. Plates have none.
fn put_heading(listed: Listed, part: &mut [u8]) -> usize
    ensures { result ≤ length part.new }
{
    match listed {
        Listed::Elements => listing::heading(part),
        Listed::Texts => listing::text_heading(part),
        Listed::Plates => 0,
    }
}

// The line of the element at a place of the file, if it has one, into a part from its byte n on: where it then ends.
fn put_line(
    listed: Listed,
    file: &[u8],
    at: usize,
    depth: usize,
    part: &mut [u8],
    n: usize,
) -> usize
    requires { n ≤ length part.old }
    ensures { result ≤ length part.new }
{
    match listed {
        Listed::Elements => n + lines::line(file, at, depth, &mut part[n..]),
        Listed::Texts => n + text_lines::line(file, at, depth, &mut part[n..]),
        Listed::Plates => n + plate_lines::line(file, at, &mut part[n..]),
    }
}

// The last line of an accepted file, into a part from its byte n on: where it then ends. Plates have none.
fn put_end(listed: Listed, marker: usize, part: &mut [u8], n: usize) -> usize
    requires { n ≤ length part.old }
    ensures { result ≤ length part.new }
{
    match listed {
        Listed::Elements => n + listing::end_line(&mut part[n..], marker),
        Listed::Texts => n + listing::end_line(&mut part[n..], marker),
        Listed::Plates => n,
    }
}

// The line of a refused file; false where it is not written.
fn print_refused(out: &impl Print, refusal: Refusal) -> bool {
    let mut line = [0u8; 128];
    let n = listing::refused_line(&mut line, refusal.number, refusal.place);
    print(out, &line, n)
}

// The heading, the lines of an accepted file, and the last line; false where not all of them are written.
fn print_lines(out: &impl Print, listed: Listed, file: &[u8], accepted: Accepted) -> bool {
    let mut part = [0u8; PART];
    let mut n = put_heading(listed, &mut part);
    let mut w = walking::start();
    for _ in 0..accepted.elements {
        let next = next_line(n);
        if !print_full(out, &part, n, next) {
            return false;
        }
        let at = w.place;
        let depth = w.depth;
        n = put_line(listed, file, at, depth, &mut part, next);
        w = walking::next(file, w);
    }
    let next = next_line(n);
    if !print_full(out, &part, n, next) {
        return false;
    }
    let n = put_end(listed, accepted.marker, &mut part, next);
    print(out, &part, n)
}

// The listing of a file, which is judged once; false where not all of it is written.
fn print_file(out: &impl Print, listed: Listed, file: &[u8]) -> bool {
    match files::judge(file, 2) {
        Ok(accepted) => print_lines(out, listed, file, accepted),
        Err(refusal) => print_refused(out, refusal),
    }
}

// Says on standard error, after the program's name, what cannot be done.
fn say(errors: &impl Print, program: &[u8], what: &[u8]) {
    let _ = errors.write_all(program);
    let _ = errors.write_all(what);
}

// Says so where not all was written.
fn report(errors: &impl Print, program: &[u8], written: bool) {
    if !written {
        say(errors, program, b": standard output cannot be written\n");
    }
}

// Reads until the buffer is full, the input ends or a read fails: the number of bytes that it put at the front.
fn read_full<R: Read>(input: &mut R, buf: &mut [u8]) -> usize
    ensures { result ≤ length buf.new }
{
    let mut done = 0;
    while done < buf.len() {
        match input.read(&mut buf[done..]) {
            Ok(0) => return done,
            Ok(n) => done += n,
            Err(_) => return done,
        }
    }
    done
}

// The listing of an input, to an output, by a program of a name; what cannot be done is said where the errors go. Reads at most
// 65,536 bytes; with one byte more the file is refused. The reading stops at the input's end and where it fails: one more read
// tells which: at the end of a file it gives 0 again.
pub fn list_input<R: Read>(
    input: &mut R,
    out: &impl Print,
    errors: &impl Print,
    listed: Listed,
    program: &[u8],
) {
    let mut file = [0u8; 65536];
    let n = read_full(input, &mut file);
    let mut one = [0u8; 1];
    match input.read(&mut one) {
        Ok(0) => {
            report(errors, program, print_file(out, listed, &file[..n]));
            return;
        }
        Ok(_) => {
            if n == 65536 {
                let refusal = Refusal {
                    number: 1,
                    place: 0,
                };
                report(errors, program, print_refused(out, refusal));
                return;
            }
        }
        Err(_) => {}
    }
    say(errors, program, b": standard input cannot be read\n");
}
