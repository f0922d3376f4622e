// The C interface of the texts of a whole file, as in include/dgn.h: the file is judged once, and then one walk goes over its
// elements. Definitions: specs/Texts, specs/Answers.

#![tactic(auto)]

ghost use Rattle.std.specs.Prelude.{◌≡◌, ℕ, ◌+◌, ◌-◌, ◌/◌, ◌≤◌, ◌<◌, length, Ok};
ghost use Rattle.std.proofs.lemmas.List.Edits.{sets};
ghost use Rattle.words.specs.Words.{words};
ghost use Rattle.order.specs.Fitting.{in_numbers, part_of, ElementPut, PartPut};
ghost use Rattle.text_views.specs.TextViews.{text_in};
ghost use Rattle.dgn_texts.specs.Texts.{entry_by, walk_of, texts_from, from_number};
ghost use Rattle.dgn_texts.specs.Answers.{TextsGiven};

use order::Part;
use text_views::Text;

// The numbers of a text at a place and a depth, from a place of the numbers on.
fn put_entry(
    file: &[u8],
    dim: usize,
    place: usize,
    depth: usize,
    text: Text,
    numbers: &mut [i64],
    from: usize,
)
    requires { (place < 1073741824) × ((depth < 1073741824) × (from + 18 ≤ length numbers.old)) }
    ensures { numbers.new ≡ sets numbers.old from (entry_by (Ok text) dim (words file.now) place depth) }
{
    let start = 2 * (place + texts::counts_word(dim) + 1);
    numbers[from] = place as i64;
    numbers[from + 1] = (words::word(file, place) / 32768 % 2) as i64;
    numbers[from + 2] = depth as i64;
    text_numbers::put_text(numbers, from + 3, start as u32, text);
}

// The numbers of element number i, where it is a text and i is k or more, behind those that are used, where they fit.
fn put_from(
    file: &[u8],
    dim: usize,
    k: usize,
    i: usize,
    place: usize,
    depth: usize,
    numbers: &mut [i64],
    used: usize,
) -> Option<usize>
    requires { (place < 1073741824) × ((depth < 1073741824) × (used ≤ length numbers.old)) }
    ensures { ElementPut in_numbers (from_number k i (entry_by (text_in dim (words file.now) place) dim (words file.now) place depth)) numbers.old used result numbers.new }
{
    if i < k {
        return Some(used);
    }
    let Ok(text) = text_views::text_in(file, dim, place) else {
        return Some(used);
    };
    if numbers.len() - used < 18 {
        return None;
    }
    put_entry(file, dim, place, depth, text, numbers, used);
    Some(used + 18)
}

// The numbers of the texts among the elements number k, k + 1, .., up to the first that does not fit: one walk from the first
// element, which keeps for each depth where the list around it ends.
fn put_texts(file: &[u8], dim: usize, elements: usize, k: usize, numbers: &mut [i64]) -> Part
    requires { (length (words file.now) ≤ 524288) × ((i : ℕ) → i < elements → (walk_of (words file.now) i).place < length (words file.now)) }
    ensures { PartPut in_numbers (part_of (length numbers.old) k (texts_from (elements - k) dim (words file.now) k)) numbers.old result numbers.new }
{
    if elements <= k {
        return Part { next: k, used: 0 };
    }
    let mut place = 0;
    let mut depth = 0;
    let mut ends = [0; 9];
    let mut end = 0;
    let mut used = 0;
    for i in 0..elements {
        let Some(more) = put_from(file, dim, k, i, place, depth, numbers, used) else {
            return Part { next: i, used };
        };
        used = more;
        let next = place + headers::size_at(file, place);
        if walking::opens_list(file, place, depth) {
            depth += 1;
            end = place + headers::extent_words(file, place);
            ends[depth] = end;
            place = next;
        } else if next == end {
            depth = walking::closed_to(depth, ends, next);
            end = walking::end_in(ends, depth);
            place = next;
        } else {
            place = next;
        }
    }
    Part {
        next: elements,
        used,
    }
}

// How many texts so many numbers are of.
fn entries(used: usize) -> usize
    ensures { result ≡ used / 18 }
{
    let sixth = thirds::third(used / 2);
    thirds::third(sixth)
}

#[unsafe(no_mangle)]
pub extern "C" fn dgn_texts(
    file: &[u8],
    dim: usize,
    k: usize,
    numbers: &mut [i64],
    out: &mut [usize],
) -> usize
    ensures { TextsGiven dim file.now k numbers.old out.old result numbers.new out.new }
{
    let elements = match order::begin(file, dim, 2, out.len()) {
        Ok(elements) => elements,
        Err(answer) => return answer,
    };
    let Part { next, used } = put_texts(file, dim, elements, k, numbers);
    if order::none_fits(used, next, elements) {
        return 15;
    }
    let texts = entries(used);
    out[0] = next;
    out[1] = texts;
    0
}
