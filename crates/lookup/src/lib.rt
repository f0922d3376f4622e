// Looking a name up in an index, by halving, with or without the deleted cells. Any bytes may be lent: the answer is that of the rule.
// Definitions: specs/LookUp, specs/Live; of the table of live cells specs/Table.

#![tactic(auto)]

ghost use Rattle.std.specs.Prelude.{◌≡◌, false, cond, ◌+◌, ◌/◌, ◌%◌, ◌<◌, ◌≤◌, ◌^◌, length, get_or, set, drop};
ghost use Rattle.words.specs.Words.{words};
ghost use Rattle.entries.specs.Entries.{entries, name_of};
ghost use Rattle.lookup.specs.LookUp.{Ended, look_up, look_up_of};
ghost use Rattle.lookup.specs.Live.{live_here, go_on, live_look_up_of};
ghost use Rattle.lookup.specs.Table.{marked, named_at, MayFill, TableTo, LookedTo};

use finder::{Found, Missed};
use refusals::Refusal;

// Where the rule ends, and how many entries it looked at.
#[derive(Clone, Copy)]
pub struct Halved {
    pub low: usize,
    pub looks: usize,
}

// The halving rule over all entries. A name is its two words as one number.
fn halve(s: &[u8], name: usize) -> Halved
    ensures { Ended (entries s.now) name result }
{
    let mut low = 0;
    let mut high = s.len() / 8;
    let mut looks = 0;
    while low < high {
        let mid = (low + high) / 2;
        looks += 1;
        if entries::entry(s, mid) / 4294967296 < name {
            low = mid + 1;
        } else {
            high = mid;
        }
    }
    Halved { low, looks }
}

// The last look.
fn find(s: &[u8], name: usize) -> Result<Found, Missed>
    ensures { result ≡ look_up (entries s.now) name }
{
    let Halved { low, looks } = halve(s, name);
    if low < s.len() / 8 {
        let e = entries::entry(s, low);
        if e / 4294967296 == name {
            return Ok(Found {
                place: e % 4294967296,
                looks: looks + 1,
            });
        }
        return Err(Missed::none_named(looks + 1));
    }
    Err(Missed::none_named(looks))
}

// The lowest place of a cell with the name of a text, live or deleted, by an index whose used bytes are the first of the lent ones: 1,
// 12, or 13 with the number of looks. No file is lent.
pub fn look_up_with_deleted(index: &[u8], used: usize, text: &[u8]) -> Result<Found, Missed>
    ensures { result ≡ look_up_of index.now used text.now }
{
    if !entries::entries_ok(index.len(), used) {
        return Err(Missed::from(Refusal {
            number: 1,
            place: 0,
        }));
    }
    let name = names::pack(text)?;
    find(&index[..used], 65536 * name.first + name.second)
}

// Whether a live cell starts at a place where an element starts.
fn is_live_cell(file: &[u8], at: usize) -> bool
    ensures { result ≡ live_here (words file.now) at }
{
    if cells::is_cell(file, at) {
        return finder::is_live(file, at);
    }
    false
}

// The table with a live cell that starts at a place, where one does.
fn put_live(t: &mut [u8], file: &[u8], at: usize)
    requires { at / 32 < length t.old }
    ensures { t.new ≡ cond (live_here (words file.now) at) (set t.old (at / 32) (at % 32 + 1)) t.old }
{
    if is_live_cell(file, at) {
        let b = at / 32;
        t[b] = (at % 32 + 1) as u8;
    }
}

// The table of the elements up to a place, of an empty one. An element's own words are followed by the next in file order.
fn fill_live(t: &mut [u8], file: &[u8], to: usize)
    requires { MayFill to t.old }
    ensures { TableTo (words file.now) to t.new }
{
    let mut at = 0;
    while at < to {
        put_live(t, file, at);
        at += headers::size_at(file, at);
    }
}

// Whether a table says that a live cell starts at a place.
fn is_marked(t: &[u8], place: usize) -> bool
    ensures { result ≡ marked t.now place }
{
    let b = place / 32;
    if t.len() <= b {
        return false;
    }
    (t[b] as usize) == place % 32 + 1
}

// Whether entry i is there and has a name.
fn has_name(s: &[u8], i: usize, name: usize) -> bool
    ensures { result ≡ named_at (entries s.now) i name }
{
    if i < s.len() / 8 {
        return entries::entry(s, i) / 4294967296 == name;
    }
    false
}

// From an entry with the name on, while the entry has the name and is deleted by the table.
fn go_on(t: &[u8], s: &[u8], low: usize, name: usize, looks: usize) -> Result<Found, Missed>
    requires { (low < length (entries s.now)) × ((name_of (get_or (entries s.now) low 0) ≡ name) × (looks + length (entries s.now) < 2 ^ 64)) }
    ensures { result ≡ go_on (marked t.now) name (drop low (entries s.now)) looks }
{
    let mut n = looks;
    for i in low..s.len() / 8 {
        if !has_name(s, i, name) {
            break;
        }
        n = looks + (i - low);
        let place = entries::entry(s, i) % 4294967296;
        if is_marked(t, place) {
            return Ok(Found { place, looks: n });
        }
    }
    Err(Missed::none_named(n))
}

// The last looks, with the live cells of the elements up to a place in a table. So every entry of the name costs one look at the
// table, whatever the order of the places.
fn find_live(file: &[u8], to: usize, s: &[u8], name: usize) -> Result<Found, Missed>
    requires { to ≤ 524288 }
    ensures { LookedTo (words file.now) to (entries s.now) name result }
{
    let Halved { low, looks } = halve(s, name);
    if s.len() / 8 <= low {
        return Err(Missed::none_named(looks));
    }
    if !has_name(s, low, name) {
        return Err(Missed::none_named(looks + 1));
    }
    let mut t = [0u8; 16384];
    fill_live(&mut t, file, to);
    go_on(&t, s, low, name, looks + 1)
}

// The place of a live cell with the name of a text, by a file and its index: of the entries of the name the first whose place starts a
// live cell. 1, the file's own, 12, or 13 with the number of looks.
pub fn look_up(
    file: &[u8],
    dim: usize,
    index: &[u8],
    used: usize,
    text: &[u8],
) -> Result<Found, Missed>
    ensures { result ≡ live_look_up_of dim file.now index.now used text.now }
{
    if !entries::entries_ok(index.len(), used) {
        return Err(Missed::from(Refusal {
            number: 1,
            place: 0,
        }));
    }
    let accepted = files::judge(file, dim)?;
    let name = names::pack(text)?;
    find_live(
        file,
        accepted.marker,
        &index[..used],
        65536 * name.first + name.second,
    )
}
