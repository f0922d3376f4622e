// The lent buffer of a file, changed in place: words put into its used part and taken out of it, by moves of bytes.
// Lengths are in bytes, places in words. Where the numbers do not fit, the buffer stays as it was. Definitions:
// specs/Files.

#![tactic(auto)]

ghost use Rattle.std.specs.Prelude.{◌≡◌};
ghost use Rattle.buffers.specs.Files.{words_inserted, words_removed};

// The piece's words go in at a place of the used words, and what stands from there on moves up.
pub fn insert_words(file: &mut [u8], used: usize, place: usize, piece: &[u8])
    ensures { file.new ≡ words_inserted file.old used place piece.now }
{
    let n = piece.len();
    if used % 2 != 0 {
        return;
    }
    if n % 2 != 0 {
        return;
    }
    if file.len() < used {
        return;
    }
    if file.len() - used < n {
        return;
    }
    if used / 2 < place {
        return;
    }
    let at = 2 * place;
    file.copy_within(at..used, at + n);
    copies::copy_in(file, at, piece);
}

// n words are taken out from a place of the used words on: the rest moves down, and the freed bytes become zero.
pub fn remove_words(file: &mut [u8], used: usize, place: usize, n: usize)
    ensures { file.new ≡ words_removed file.old used place n }
{
    if used % 2 != 0 {
        return;
    }
    if file.len() < used {
        return;
    }
    if used / 2 < place {
        return;
    }
    if used / 2 - place < n {
        return;
    }
    let freed = 2 * n;
    let at = 2 * place;
    file.copy_within(at + freed..used, at);
    copies::clear(file, used - freed, used);
}
