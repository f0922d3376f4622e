// The index of a file's cells, built afresh in a lent buffer. Definitions: specs/Indexing.

#![tactic(auto)]

ghost use Rattle.std.specs.Prelude.{◌≡◌, ◌<◌, length};
ghost use Rattle.words.specs.Words.{words};
ghost use Rattle.headers.specs.Header.{name_first, name_second};
ghost use Rattle.entries.specs.Entries.{entries};
ghost use Rattle.cells.specs.Index.{cell_entry};
ghost use Rattle.indexing.specs.Indexing.{MayBuild, MayMeet, Met, Gathered, Lists, Builds, Puts, BuildsFile};

use refusals::Refusal;

// The entry of the cell at a place.
fn entry_at(file: &[u8], at: usize) -> usize
    requires { (at < length file.now) × (length file.now < 4294967296) }
    ensures { result ≡ cell_entry (record { first = name_first (words file.now) at; second = name_second (words file.now) at; place = at }) }
{
    let t = headers::type_at(file, at);
    let k = at + kinds::pick(t == 1, 16, 19);
    281474976710656 * words::word(file, k) + 4294967296 * words::word(file, k + 1) + at
}

// The entry of what starts at a place stored as entry i where it is a cell; answers the number of the next entry.
fn meet(s: &mut [u8], i: usize, file: &[u8], at: usize) -> usize
    requires { MayMeet file.now i at }
    ensures { Met (words file.now) at i (entries s.old) result (entries s.new) }
{
    if cells::is_cell(file, at) {
        entries::put_entry(s, i, entry_at(file, at));
        return i + 1;
    }
    i
}

// The entries of the cells up to a place, in the order in which they are met, as many as there is room for; answers how many
// cells there are.
fn gather(s: &mut [u8], file: &[u8], to: usize) -> usize
    requires { length file.now < 4294967296 }
    ensures { Gathered file.now to (entries s.old) result (entries s.new) }
{
    let bound = file.len() / 2;
    let end = kinds::pick(to < bound, to, bound);
    let mut at = 0;
    let mut i = 0;
    while at < end {
        // the next place first: a processor that foresees the test of the type wrongly has it then already
        let next = at + headers::size_at(file, at);
        i = meet(s, i, file, at);
        at = next;
    }
    i
}

// The cells up to a place in file order, as many as a buffer of entries holds whole; its other bytes stay. Answers how many
// cells there are. A file above the limit has none.
pub fn list_cells(file: &[u8], to: usize, s: &mut [u8]) -> usize
    ensures { Lists file.now to s.old result s.new }
{
    if 1048576 < file.len() {
        return 0;
    }
    let end = 8 * (s.len() / 8);
    gather(&mut s[..end], file, to)
}

// The index of the cells up to a place, n of them, in a buffer that has room for it. Answers its used length.
fn fill_in(file: &[u8], to: usize, n: usize, index: &mut [u8]) -> usize
    requires { MayBuild file.now to n index.old }
    ensures { Builds file.now to index.old result index.new }
{
    let used = 8 * n;
    gather(&mut index[..used], file, to);
    sorting::sort(&mut index[..used]);
    let end = index.len();
    copies::clear(index, used, end);
    used
}

// The index of the cells up to a place: the entries in order, zeros past them, whatever the buffer held. Where the buffer is too
// short it stays as it was.
pub fn put_index(file: &[u8], to: usize, index: &mut [u8]) -> Option<usize>
    ensures { Puts file.now to index.old result index.new }
{
    if 1048576 < file.len() {
        return None;
    }
    let n = cells::count_cells(file, 0, to);
    if index.len() / 8 < n {
        return None;
    }
    let used = fill_in(file, to, n, index);
    Some(used)
}

// The index of a file: its used length, with zeros past it; or the refusal, the file's before 15, and the buffer as it was.
pub fn build(file: &[u8], dim: usize, index: &mut [u8]) -> Result<usize, Refusal>
    ensures { BuildsFile dim file.now index.old result index.new }
{
    let accepted = files::judge(file, dim)?;
    put_index(file, accepted.marker, index).ok_or(Refusal {
        number: 15,
        place: 0,
    })
}
