// Radix-50 names: texts of at most six letters, and the two words that store them. The definitions are in specs/Names.

#![tactic(auto)]

mod pairs;

ghost use Rattle.std.specs.Prelude.{◌≡◌, ◌/◌, ◌<◌, ◌≤◌, true, cond, ltb, length};
ghost use Rattle.names.specs.Names.{code_of, letter_of, letters_of, all_letters, ends_in_space, good_text, code_at, word_from, packed, word_ok, name_ok, text_in, text_of, text_answer, unpacked};
ghost use Rattle.names.specs.Pairs.{is_table};

use refusals::Refusal;

// The two words of a packed text.
#[derive(Clone, Copy)]
pub struct Name {
    pub first: usize,
    pub second: usize,
}

// A text of at most six letters. The bytes after its length are zero.
#[derive(Clone, Copy)]
pub struct Unpacked {
    pub length: usize,
    pub letters: [u8; 6],
}

// Why two words have no text: the refusal, and six zeros where the letters would be.
#[derive(Clone, Copy)]
pub struct NoText {
    pub refusal: Refusal,
    pub letters: [u8; 6],
}

// The codes of the three letters of a word.
#[derive(Clone, Copy)]
struct Codes {
    a: usize,
    b: usize,
    c: usize,
}

// The code of a letter, 29 for a byte that is none.
fn code_of(letter: u8) -> usize
    ensures { result ≡ code_of letter }
{
    match letter {
        32 => 0,
        65..=90 => letter as usize - 64,
        36 => 27,
        46 => 28,
        48..=57 => letter as usize - 18,
        _ => 29,
    }
}

// The letter of a code, 0 for a code that has none.
fn letter_of(code: usize) -> u8
    ensures { result ≡ letter_of code }
{
    match code {
        0 => 32,
        1..=26 => code as u8 + 64,
        27 => 36,
        28 => 46,
        30..=39 => code as u8 + 18,
        _ => 0,
    }
}

// An entry of the table as a number.
fn wide(entry: u16) -> usize
    ensures { result ≡ entry }
{
    entry as usize
}

// The code of the first letter of a word.
fn first_code(word: usize) -> usize
    requires { word ≤ 63999 }
    ensures { result ≡ word / 1600 }
{
    word * 83887 / 134217728
}

// The code of the second letter of a word that is k after its first letter.
fn second_code(k: usize) -> usize
    requires { k < 1600 }
    ensures { result ≡ k / 40 }
{
    k * 1639 / 65536
}

// The codes of a word, for judging it.
fn letters(word: usize) -> Codes
    requires { word ≤ 63999 }
    ensures { result ≡ letters_of word }
{
    let a = first_code(word);
    let k = word - a * 1600;
    let b = second_code(k);
    Codes {
        a,
        b,
        c: k - b * 40,
    }
}

// The codes of a word, the last two by the table.
fn letters_by(table: &[u16; 1600], word: usize) -> Codes
    requires word_bound { word ≤ 63999 }
    requires table_value { is_table table.now ≡ true }
    ensures { result ≡ letters_of word }
{
    let a = first_code(word);
    let pair = wide(table[word - a * 1600]);
    Codes {
        a,
        b: pair / 256,
        c: pair % 256,
    }
}

// Whether each byte of a text is a letter.
fn all_letters(text: &[u8]) -> bool
    ensures { result ≡ all_letters text.now }
{
    text.iter().all(|&letter| code_of(letter) != 29)
}

// Whether the last letter of a text is a space.
fn ends_in_space(text: &[u8]) -> bool
    ensures { result ≡ ends_in_space text.now }
{
    let n = text.len();
    if n == 0 {
        return false;
    }
    text[n - 1] == 32
}

// Whether a text has 0 to 6 letters and no trailing space.
fn good_text(text: &[u8]) -> bool
    ensures { result ≡ good_text text.now }
{
    if 6 < text.len() {
        return false;
    }
    if ends_in_space(text) {
        return false;
    }
    all_letters(text)
}

// The code of letter i of a text, a space past its end.
fn code_at(text: &[u8], i: usize) -> usize
    ensures { result ≡ code_at text.now i }
{
    if i < text.len() { code_of(text[i]) } else { 0 }
}

// The word of the three letters of a text from letter i on.
fn word_from(text: &[u8], i: usize) -> usize
    requires { i ≤ 3 }
    ensures { result ≡ word_from text.now i }
{
    let a = code_at(text, i);
    let b = code_at(text, i + 1);
    let c = code_at(text, i + 2);
    a * 1600 + b * 40 + c
}

// The two words of a text; 12 for more than six letters, a byte that is no letter, a trailing space.
pub fn pack(text: &[u8]) -> Result<Name, Refusal>
    ensures { result ≡ packed text.now }
{
    if good_text(text) {
        let first = word_from(text, 0);
        let second = word_from(text, 3);
        Ok(Name { first, second })
    } else {
        Err(Refusal {
            number: 12,
            place: 0,
        })
    }
}

// Whether a word is part of a stored name.
fn word_ok(word: usize) -> bool
    ensures { result ≡ word_ok word }
{
    if 63999 < word {
        return false;
    }
    let l = letters(word);
    if l.a == 29 {
        return false;
    }
    if l.b == 29 {
        return false;
    }
    if l.c == 29 {
        return false;
    }
    true
}

// Whether two words are a stored name: both at most 63999, no letter of code 29.
pub fn name_ok(first: usize, second: usize) -> bool
    ensures { result ≡ name_ok first second }
{
    if word_ok(first) {
        word_ok(second)
    } else {
        false
    }
}

// The length of the text of six codes: the place after the last that is no space.
fn text_length(l: Codes, m: Codes) -> usize
    ensures { result ≡ length (text_in l m) }
{
    if m.c != 0 {
        return 6;
    }
    if m.b != 0 {
        return 5;
    }
    if m.a != 0 {
        return 4;
    }
    if l.c != 0 {
        return 3;
    }
    if l.b != 0 {
        return 2;
    }
    if l.a != 0 {
        return 1;
    }
    0
}

// The letter at place i of a text of n letters, zero past its end.
fn shown(n: usize, i: usize, code: usize) -> u8
    ensures { result ≡ cond (ltb i n) (letter_of code) 0 }
{
    if i < n { letter_of(code) } else { 0 }
}

// The text of six codes, as an answer.
fn text_of(l: Codes, m: Codes) -> Unpacked
    ensures { result ≡ text_answer (text_in l m) }
{
    let length = text_length(l, m);
    let letters = [
        shown(length, 0, l.a),
        shown(length, 1, l.b),
        shown(length, 2, l.c),
        shown(length, 3, m.a),
        shown(length, 4, m.b),
        shown(length, 5, m.c),
    ];
    Unpacked { length, letters }
}

// The text of a stored name. No other function reads the table: each call copies it.
fn name_text(first: usize, second: usize) -> Unpacked
    requires first_bound { first ≤ 63999 }
    requires second_bound { second ≤ 63999 }
    ensures { result ≡ text_answer (text_of first second) }
{
    let table = pairs::PAIRS;
    let l = letters_by(&table, first);
    let m = letters_by(&table, second);
    text_of(l, m)
}

// The text of two words; 12 and six zeros where they are no stored name.
pub fn unpack(first: usize, second: usize) -> Result<Unpacked, NoText>
    ensures { result ≡ unpacked first second }
{
    if name_ok(first, second) {
        Ok(name_text(first, second))
    } else {
        Err(NoText {
            refusal: Refusal {
                number: 12,
                place: 0,
            },
            letters: [0; 6],
        })
    }
}
