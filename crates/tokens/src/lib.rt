// The bytes of a reply: where a line or a word ends, how a line begins, and one number. Each part is a slice.
#![tactic(auto)]

ghost use Rattle.std.specs.Prelude.{◌≡◌, ◌≤◌, length};
ghost use Rattle.lists.specs.Pieces.{up_to};
ghost use Rattle.tokens.specs.Kinds.{kind_of};
ghost use Rattle.tokens.specs.Numbers.{front, decimal, numbered as numbered_token, unsigned as unsigned_token, first_word};

use job::Literal;
use memchr::memchr;

// A word between spaces.
#[derive(Clone, Copy, PartialEq, Eq, Debug)]
pub enum Token {
    // No number of a reply.
    Bad,
    // The 0 that closes the numbers.
    Zero,
    // A number with its sign, and whether its digits end the word.
    Number { literal: Literal, ends: bool },
}

// A line by how it begins, or by what it is.
#[derive(Clone, Copy, PartialEq, Eq, Debug)]
pub enum Kind {
    Comment,
    Satisfiable,
    Unsatisfiable,
    Values,
    Other,
}

// The word at the front of a line's rest, and its length: it ends at a space, or with the line.
#[derive(Clone, Copy, PartialEq, Eq, Debug)]
pub struct FirstWord {
    pub token: Token,
    pub length: usize,
}

// How many bytes stand in front of the first such byte; all of them where there is none. This is for a byte that may stand far on.
#[tactic(auto, using(crate::proofs::FindLaws::length_up_to_first, crate::proofs::FindLaws::length_up_to_none))]
fn length_up_to_far(byte: u8, text: &[u8]) -> usize
    ensures value { result ≡ length (up_to byte text.now) }
    ensures within { result ≤ length text.now }
{
    match memchr(byte, text) {
        Some(length) => length,
        None => text.len(),
    }
}

// So many bytes are looked at one by one before `memchr` is called, which tests 64 bytes before it answers, however near the byte stands:
// by it alone, lines of two bytes take two to three times as long. Lines of more bytes than these are quicker by `memchr`.
const NEAR: usize = 32;

// How many bytes stand in front of the first such byte; all of them where there is none. It is a part of what calls it, so that a short
// line costs no call.
#[inline(always)]
pub fn length_up_to(byte: u8, text: &[u8]) -> usize
    ensures value { result ≡ length (up_to byte text.now) }
    ensures within { result ≤ length text.now }
{
    if text.len() < NEAR {
        return length_up_to_far(byte, text);
    }
    for i in 0..NEAR {
        if text[i] == byte {
            return i;
        }
    }
    NEAR + length_up_to_far(byte, &text[NEAR..])
}

const SATISFIABLE: &[u8] = b"s SATISFIABLE";

const UNSATISFIABLE: &[u8] = b"s UNSATISFIABLE";

// The kind of a line. Tests and no `match` over byte strings, which is proved byte by byte, with forty goals. Where it is a part of the
// loop that reads lines, that loop makes only the tests that it asks for.
#[inline]
pub fn kind_of(line: &[u8]) -> Kind
    ensures { result ≡ kind_of line.now }
{
    if line.starts_with(b"c") {
        Kind::Comment
    } else if line == SATISFIABLE {
        Kind::Satisfiable
    } else if line == UNSATISFIABLE {
        Kind::Unsatisfiable
    } else if line.starts_with(b"v ") {
        Kind::Values
    } else {
        Kind::Other
    }
}

// The digits at the front of a part: how many, and the number that they write.
#[derive(Clone, Copy)]
struct Front {
    count: usize,
    value: usize,
}

// More bytes are too many: eight digits already write no number of a reply.
fn digits(part: &[u8]) -> Front
    requires { length part.now ≤ 8 }
    ensures within { result.count ≤ length part.now }
    ensures count { result.count ≡ length (front part.now) }
    ensures value { result.value ≡ decimal 0 (front part.now) }
{
    let mut value = 0;
    for (i, &byte) in part.iter().enumerate() {
        if !byte.is_ascii_digit() {
            return Front { count: i, value };
        }
        value = value * 10 + usize::from(byte - b'0');
    }
    Front {
        count: part.len(),
        value,
    }
}

// A number by its sign: 0 closes, and there is no `-0`.
fn numbered(plain: bool, value: usize, ends: bool) -> Token
    ensures { result ≡ numbered_token plain value ends }
{
    if value == 0 {
        if plain && ends {
            Token::Zero
        } else {
            Token::Bad
        }
    } else {
        Token::Number {
            literal: Literal::valued(plain, value - 1),
            ends,
        }
    }
}

// What is left of a word behind its digits: most often nothing, and then no search is called.
fn length_of_tail(rest: &[u8]) -> usize
    ensures value { result ≡ length (up_to 32 rest.now) }
    ensures within { result ≤ length rest.now }
{
    if rest.starts_with(b" ") {
        0
    } else {
        length_up_to_far(b' ', rest)
    }
}

// A number behind its sign, at the front of a line's rest. Digits that a space or the line's end follows end the word; only any other
// word is looked through for its end.
fn unsigned(plain: bool, rest: &[u8]) -> FirstWord
    ensures within { result.length ≤ length rest.now }
    ensures token { result.token ≡ unsigned_token plain (up_to 32 rest.now) }
    ensures length { result.length ≡ length (up_to 32 rest.now) }
{
    let front = digits(&rest[..rest.len().min(8)]);
    let count = front.count;
    let length = count + length_of_tail(&rest[count..]);
    if count == 0 || 7 < count || (1 < count && rest[0] == b'0') {
        return FirstWord {
            token: Token::Bad,
            length,
        };
    }
    FirstWord {
        token: numbered(plain, front.value, count == length),
        length,
    }
}

// The word at the front of a line's rest.
pub fn first_word(rest: &[u8]) -> FirstWord
    ensures { result ≡ first_word rest.now }
{
    match rest.strip_prefix(b"-") {
        Some(digits) => {
            let word = unsigned(false, digits);
            FirstWord {
                token: word.token,
                length: 1 + word.length,
            }
        }
        None => unsigned(true, rest),
    }
}
