// The C interface of the text at a place, as in include/dgn.h: its numbers, where its characters stand, and its fields. No
// logic: each contract is the library's own equation, put into numbers by specs/TextReplies.

#![tactic(auto)]

ghost use Rattle.text_views.specs.TextViews.{text_of, characters_of, field_of};
ghost use Rattle.answers.specs.Answers.{Replied};
ghost use Rattle.dgn_text.specs.TextReplies.{text_reply, characters_reply, field_reply};

#[unsafe(no_mangle)]
pub extern "C" fn dgn_text(file: &[u8], dim: usize, place: usize, out: &mut [i64]) -> usize
    ensures { Replied 15 (text_reply dim place (text_of dim file.now place)) out.old result out.new }
{
    if out.len() < 15 {
        return 1;
    }
    match text_views::text_at(file, dim, place) {
        Ok(text) => {
            let start = 2 * (place + texts::counts_word(dim) + 1);
            text_numbers::put_text(out, 0, start as u32, text);
            0
        }
        Err(refusal) => refusal.number + 256 * refusal.place,
    }
}

#[unsafe(no_mangle)]
pub extern "C" fn dgn_characters(file: &[u8], dim: usize, place: usize, out: &mut [usize]) -> usize
    ensures { Replied 2 (characters_reply (characters_of dim file.now place)) out.old result out.new }
{
    if out.len() < 2 {
        return 1;
    }
    match text_views::characters_answer(file, dim, place) {
        Ok(characters) => {
            out[0] = characters.start;
            out[1] = characters.length;
            0
        }
        Err(refusal) => refusal.number + 256 * refusal.place,
    }
}

#[unsafe(no_mangle)]
pub extern "C" fn dgn_field(
    file: &[u8],
    dim: usize,
    place: usize,
    k: usize,
    out: &mut [i64],
) -> usize
    ensures { Replied 3 (field_reply (field_of dim file.now place k)) out.old result out.new }
{
    if out.len() < 3 {
        return 1;
    }
    match text_views::field_at(file, dim, place, k) {
        Ok(field) => {
            out[0] = field.first as i64;
            out[1] = field.length as i64;
            out[2] = field.justification;
            0
        }
        Err(refusal) => refusal.number + 256 * refusal.place,
    }
}
