// The C interface of names, as in include/dgn.h: packing a text and unpacking two words. No logic: each contract is the
// library's own equation, put into numbers by specs/PackUnpack.

#![tactic(auto)]

ghost use Rattle.std.specs.Prelude.{◌≡◌, [], ◌∷◌, ◌++◌, ◌≤◌, length};
ghost use Rattle.std.proofs.lemmas.List.Edits.{sets};
ghost use Rattle.names.specs.Names.{packed, unpacked};
ghost use Rattle.answers.specs.Answers.{Replied};
ghost use Rattle.dgn_names.specs.PackUnpack.{pack_reply, unpack_reply};

#[unsafe(no_mangle)]
pub extern "C" fn dgn_pack(text: &[u8], out: &mut [usize]) -> usize
    ensures { Replied 2 (pack_reply (packed text.now)) out.old result out.new }
{
    if out.len() < 2 {
        return 1;
    }
    match names::pack(text) {
        Ok(name) => {
            out[0] = name.first;
            out[1] = name.second;
            0
        }
        Err(refusal) => refusal.number + 256 * refusal.place,
    }
}

// The letters and zeros behind them.
fn put_letters(text: &mut [u8], letters: [u8; 6])
    requires { 7 ≤ length text.old }
    ensures { text.new ≡ sets text.old 0 (letters ++ (0 ∷ [])) }
{
    text[0] = letters[0];
    text[1] = letters[1];
    text[2] = letters[2];
    text[3] = letters[3];
    text[4] = letters[4];
    text[5] = letters[5];
    text[6] = 0;
}

#[unsafe(no_mangle)]
pub extern "C" fn dgn_unpack(first: usize, second: usize, text: &mut [u8]) -> usize
    ensures { Replied 7 (unpack_reply (unpacked first second)) text.old result text.new }
{
    if text.len() < 7 {
        return 1;
    }
    let name = match names::unpack(first, second) {
        Ok(name) => name,
        Err(none) => return none.refusal.number + 256 * none.refusal.place,
    };
    put_letters(text, name.letters);
    0
}
