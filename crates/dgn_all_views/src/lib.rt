// The C interface of the views of a whole file, as in include/dgn.h: the file is judged once; then a hop finds an element at
// the top from which one walk goes over the elements and keeps the header of each depth. Definitions: specs/Tour, specs/Views.

#![tactic(auto)]

ghost use Rattle.std.specs.Prelude.{◌≡◌, true, cond, not, ℕ, ◌+◌, ◌-◌, ◌*◌, ◌≤◌, ◌<◌, ◌^◌, length, ltb};
ghost use Rattle.std.proofs.lemmas.List.Edits.{sets};
ghost use Rattle.words.specs.Words.{words, word_at};
ghost use Rattle.headers.specs.Flags.{place_ok};
ghost use Rattle.places.specs.Places.{above_of};
ghost use Rattle.dgn_all_views.specs.Tour.{header_in, GoesOn, tour_of, TopBefore};
ghost use Rattle.dgn_all_views.specs.Views.{views_many, shown_at, views_from, Begins, PartPut};
ghost use Rattle.dgn_all_views.specs.Answers.{ViewsGiven};

// An element's number and place.
#[derive(Clone, Copy)]
struct Numbered {
    number: usize,
    place: usize,
}

// Whether the element at a place is no component, by its C: it is at the top. C of type 9 does not tell.
fn no_component(file: &[u8], at: usize) -> bool
    ensures { result ≡ not (place_ok 1 (word_at (words file.now) at)) }
{
    let w = words::word(file, at);
    if kinds::type_of(w) == 9 {
        return false;
    }
    w / 128 % 2 == 0
}

// The last element up to number k that shows that it is at the top. Of each element before it words 0 and 1 are read, and
// nothing is kept.
fn top_before(file: &[u8], k: usize) -> Numbered
    requires { k ≤ 1048576 }
    ensures { TopBefore (words file.now) k result }
{
    let mut at = 0;
    let mut place = 0;
    let mut number = 0;
    for i in 1..=k {
        at += headers::size_at(file, at);
        let top = no_component(file, at);
        place = kinds::pick(top, at, place);
        number = kinds::pick(top, i, number);
    }
    Numbered { number, place }
}

// The direct header of an element at a depth.
fn above_in(headers: [usize; 9], depth: usize) -> places::Above
    ensures { result ≡ above_of (header_in headers depth) }
{
    if depth == 0 {
        return places::Above::Top;
    }
    if 8 < depth {
        return places::Above::Under { place: 0 };
    }
    places::Above::Under {
        place: headers[depth],
    }
}

// Whether the element at a place opens no list and is not the last of its own, which ends at `end`: so that the next one is in
// the same list. Most elements are such.
fn goes_on(file: &[u8], place: usize, depth: usize, end: usize) -> bool
    ensures { result ≡ true → GoesOn (words file.now) place depth end }
{
    if file.len() / 2 <= place {
        return false;
    }
    let size = headers::size_at(file, place);
    if headers::extent_words(file, place) != size {
        return false;
    }
    if depth == 0 {
        return true;
    }
    place + size != end
}

// The view of the i-th element of the walk, where i is k or more, behind those of the elements before it.
fn put_one(
    file: &[u8],
    place: usize,
    depth: usize,
    above: places::Above,
    views: &mut [i64],
    k: usize,
    i: usize,
)
    requires { (place < length (words file.now)) × (k ≤ i → 32 * (i - k) + 32 ≤ length views.old) }
    ensures { views.new ≡ cond (ltb i k) views.old (sets views.old (32 * (i - k)) (shown_at (words file.now) place depth above)) }
{
    if i < k {
        return;
    }
    let from = 32 * (i - k);
    if let Ok(element) = views::element_in(file, place, depth, above) {
        view_numbers::put_view(views, from, place, element);
    }
}

// The views of n elements from the k-th on of the walk that begins with the element at the place `top`, at the top.
fn put_views(file: &[u8], top: usize, k: usize, n: usize, views: &mut [i64])
    requires { (32 * n ≤ length views.old) × ((k + n < 2 ^ 64) × ((i : ℕ) → i < k + n → (tour_of (words file.now) top i).walk.place < length (words file.now))) }
    ensures { views.new ≡ sets views.old 0 (views_from n (words file.now) top k) }
{
    let last = k + n;
    let mut place = top;
    let mut depth = 0;
    let mut ends = [0; 9];
    let mut headers = [0; 9];
    let mut end = 0;
    let mut above = places::Above::Top;
    for i in 0..last {
        put_one(file, place, depth, above, views, k, i);
        let size = headers::size_at(file, place);
        if goes_on(file, place, depth, end) {
            place += size;
        } else if walking::opens_list(file, place, depth) {
            depth += 1;
            end = place + headers::extent_words(file, place);
            ends[depth] = end;
            headers[depth] = place;
            above = places::Above::Under { place };
            place += size;
        } else {
            place += size;
            depth = walking::closed_to(depth, ends, place);
            end = walking::end_in(ends, depth);
            above = above_in(headers, depth);
        }
    }
}

// The views of n elements from number k on.
fn put_part(file: &[u8], k: usize, n: usize, views: &mut [i64])
    requires { (32 * n ≤ length views.old) × (0 < n → (k + n ≤ 1048576) × Begins (words file.now) k n) }
    ensures { PartPut (words file.now) k n views.old views.new }
{
    if n == 0 {
        return;
    }
    let top = top_before(file, k);
    let number = top.number;
    put_views(file, top.place, k - number, n, views);
}

// How many views there are and fit.
fn many(room: usize, k: usize, elements: usize) -> usize
    ensures { result ≡ views_many room k elements }
{
    if elements <= k {
        return 0;
    }
    let left = elements - k;
    let fit = room / 32;
    if fit <= left { fit } else { left }
}

#[unsafe(no_mangle)]
pub extern "C" fn dgn_views(
    file: &[u8],
    dim: usize,
    k: usize,
    views: &mut [i64],
    out: &mut [usize],
) -> usize
    ensures { ViewsGiven dim file.now k views.old out.old result views.new out.new }
{
    let elements = match order::begin(file, dim, 1, out.len()) {
        Ok(elements) => elements,
        Err(answer) => return answer,
    };
    let n = many(views.len(), k, elements);
    if order::none_fits(n, k, elements) {
        return 15;
    }
    put_part(file, k, n, views);
    out[0] = n;
    0
}
