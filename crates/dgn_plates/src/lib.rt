// The C interface of the plates of cells, as in include/dgn.h: of the one at a place, and of those of a whole file, which is
// judged once and then gone over in one pass, each element beginning where the words of the one before end. Definitions:
// specs/Plates, specs/Answers.

#![tactic(auto)]

ghost use Rattle.std.specs.Prelude.{◌≡◌, ◌+◌, ◌-◌, ◌≤◌, ◌<◌, ◌^◌, length};
ghost use Rattle.std.proofs.lemmas.List.Edits.{sets};
ghost use Rattle.words.specs.Words.{words, word_at, Below};
ghost use Rattle.kinds.specs.FirstWord.{deleted_of};
ghost use Rattle.plates.specs.Plates.{plate_numbers, plate_of};
ghost use Rattle.plates.specs.Hops.{plate_in};
ghost use Rattle.answers.specs.Answers.{Replied};
ghost use Rattle.order.specs.Fitting.{part_of, ElementPut, PartPut};
ghost use Rattle.dgn_plates.specs.Plates.{plate_given, CellPut, in_plates, plate_items, plates_from};
ghost use Rattle.dgn_plates.specs.Answers.{plate_reply, PlatesGiven};

use order::Part;
use plates::Plate;

// The nine numbers of a plate, from a place of a slice on.
fn put_plate(numbers: &mut [i64], from: usize, plate: Plate)
    requires { (from + 9 ≤ length numbers.old) × Below 65536 (plate_numbers plate) }
    ensures { numbers.new ≡ sets numbers.old from (plate_given plate) }
{
    numbers[from] = plate.first as i64;
    numbers[from + 1] = plate.second as i64;
    numbers[from + 2] = plate.lines as i64;
    numbers[from + 3] = plate.pointed as i64;
    numbers[from + 4] = plate.texts as i64;
    numbers[from + 5] = plate.curves as i64;
    numbers[from + 6] = plate.headers as i64;
    numbers[from + 7] = plate.others as i64;
    numbers[from + 8] = plate.levels as i64;
}

// The nine numbers of the plate of the element at a place of a judged file, from a place of a slice on; false where it is no
// cell. The one place where a plate is asked for, so that it is made where its numbers go.
fn put_cell(file: &[u8], at: usize, numbers: &mut [i64], from: usize) -> bool
    requires { from + 9 ≤ length numbers.old }
    ensures { CellPut (plate_in (words file.now) at) from numbers.old result numbers.new }
{
    match plates::plate_in(file, at) {
        Ok(plate) => {
            put_plate(numbers, from, plate);
            true
        }
        Err(_) => false,
    }
}

// The numbers of the element at a place, where it is a cell, behind those of so many other plates, where they fit.
fn put_element(file: &[u8], at: usize, numbers: &mut [i64], used: usize) -> Option<usize>
    requires { (at < 2 ^ 40) × (used ≤ in_plates.room numbers.old) }
    ensures { ElementPut in_plates (plate_items (words file.now) at) numbers.old used result numbers.new }
{
    if !cells::is_cell(file, at) {
        return Some(used);
    }
    let first = 11 * used;
    if numbers.len() - first < 11 {
        return None;
    }
    numbers[first] = at as i64;
    numbers[first + 1] = (words::word(file, at) / 32768 % 2) as i64;
    put_cell(file, at, numbers, first + 2);
    Some(used + 1)
}

// The plates of the cells among the elements number k, k + 1, .., up to the first that does not fit.
fn put_plates(file: &[u8], elements: usize, k: usize, numbers: &mut [i64]) -> Part
    requires { elements ≤ 1048576 }
    ensures { PartPut in_plates (part_of (in_plates.room numbers.old) k (plates_from (elements - k) (words file.now) k)) numbers.old result numbers.new }
{
    if elements <= k {
        return Part { next: k, used: 0 };
    }
    let mut at = order::start_of(file, k);
    let mut used = 0;
    for i in k..elements {
        let Some(more) = put_element(file, at, numbers, used) else {
            return Part { next: i, used };
        };
        used = more;
        at += headers::size_at(file, at);
    }
    Part {
        next: elements,
        used,
    }
}

#[unsafe(no_mangle)]
pub extern "C" fn dgn_plate(file: &[u8], dim: usize, place: usize, out: &mut [i64]) -> usize
    ensures { Replied 9 (plate_reply (plate_of dim file.now place)) out.old result out.new }
{
    if out.len() < 9 {
        return 1;
    }
    if let Err(refusal) = places::spotted_at(file, dim, place) {
        return refusal.number + 256 * refusal.place;
    }
    if put_cell(file, place, out, 0) {
        return 0;
    }
    18
}

#[unsafe(no_mangle)]
pub extern "C" fn dgn_plates(
    file: &[u8],
    dim: usize,
    k: usize,
    numbers: &mut [i64],
    out: &mut [usize],
) -> usize
    ensures { PlatesGiven dim file.now k numbers.old out.old result numbers.new out.new }
{
    let elements = match order::begin(file, dim, 2, out.len()) {
        Ok(elements) => elements,
        Err(answer) => return answer,
    };
    let Part { next, used } = put_plates(file, elements, k, numbers);
    if order::none_fits(used, next, elements) {
        return 15;
    }
    out[0] = next;
    out[1] = used;
    0
}
