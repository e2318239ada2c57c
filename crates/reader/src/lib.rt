// 'One reader keeps the reply and its place in it': its methods read the next line or word and move the place on. Each is thin: a function
// with a slice and a number does the reading.
#![tactic(auto)]

ghost use Rattle.std.specs.Prelude.{◌≡◌, ◌+◌, ◌≤◌, ltb, length, drop};
ghost use Rattle.std.specs.Int.{from_bool};
ghost use Rattle.lists.specs.Pieces.{up_to, cut};
ghost use Rattle.tokens.specs.Kinds.{kind_of};
ghost use Rattle.tokens.specs.Numbers.{token};
ghost use Rattle.reader.specs.Parts.{joined};

use tokens::{FirstWord, Kind, Token};

// A line without its LF. Only the last line of a text has none.
#[derive(Clone, Copy)]
pub struct Line<'a> {
    // Counted from 1.
    pub number: usize,
    pub kind: Kind,
    pub text: &'a [u8],
    pub ended: bool,
    ghost known: { kind ≡ kind_of text.now },
}

// A word of a line. Only the last one has no space behind it.
#[derive(Clone, Copy, PartialEq, Eq, Debug)]
pub struct Word {
    pub token: Token,
    pub ended: bool,
}

// The line that starts at a place. It is a part of `next_line`, and that of the loop that reads lines: a call of its own costs as much as
// reading a short line.
#[tactic(auto, using(lists::proofs::PieceLaws::take_up_to))]
#[inline(always)]
fn line_at<'a>(text: &'a [u8], at: usize, number: usize) -> Line<'a>
    requires { at ≤ length text.now }
    ensures number { result.number ≡ number }
    ensures text { result.text.now ≡ up_to 10 (drop at text.now) }
    ensures kind { result.kind ≡ kind_of result.text.now }
    ensures ended { result.ended ≡ ltb (at + length result.text.now) (length text.now) }
    ensures within { at + length result.text.now ≤ length text.now }
{
    let rest = &text[at..];
    let length = tokens::length_up_to(b'\n', rest);
    let line = &rest[..length];
    Line {
        number,
        kind: tokens::kind_of(line),
        text: line,
        ended: length < rest.len(),
    }
}

// The word that starts at a place of a line.
#[tactic(auto, unfolding(tokens::specs::Numbers::first_word))]
fn word_at(line: &[u8], at: usize) -> FirstWord
    requires { at ≤ length line.now }
    ensures token { result.token ≡ token (up_to 32 (drop at line.now)) }
    ensures length { result.length ≡ length (up_to 32 (drop at line.now)) }
    ensures within { at + result.length ≤ length line.now }
{
    tokens::first_word(&line[at..])
}

// A text, the place in it and the number of the line there. Only `new` makes one, of any text.
#[derive(Clone, Copy)]
pub struct Reader<'a> {
    text: &'a [u8],
    at: usize,
    line: usize,
    ghost within: { at ≤ length text.now },

    // A line that is passed has at least its LF.
    ghost counted: { line ≤ at + 1 },
}

impl<'a> Reader<'a> {
    ghost use Rattle.reader.specs.Reader.{ahead};

    pub fn new(text: &'a [u8]) -> Reader<'a>
        ensures text { result.text ≡ text.entry }
        ensures at { result.at ≡ 0 }
        ensures line { result.line ≡ 1 }
        ensures all { ahead result ≡ text.now }
    {
        Reader {
            text,
            at: 0,
            line: 1,
        }
    }

    // The line that starts here. The place moves behind its LF, or to the end.
    #[inline(always)]
    pub fn next_line(&mut self) -> Line<'a>
        ensures number { result.number ≡ self.old.line }
        ensures text { result.text.now ≡ up_to 10 (ahead self.old) }
        ensures kind { result.kind ≡ kind_of result.text.now }
        ensures ended { result.ended ≡ ltb (self.old.at + length result.text.now) (length self.old.text.now) }
        ensures same { self.new.text ≡ self.old.text }
        ensures place { self.new.at ≡ self.old.at + (length result.text.now + from_bool result.ended) }
        ensures line { self.new.line ≡ self.old.line + from_bool result.ended }
        ensures lines { cut 10 (ahead self.old)
            ≡ joined result.ended result.text.now (cut 10 (ahead self.new)) }
    {
        let line = line_at(self.text, self.at, self.line);
        self.at += line.text.len() + usize::from(line.ended);
        self.line += usize::from(line.ended);
        line
    }

    // The word that starts here, of a line. The place moves behind its space, or to the end.
    pub fn next_word(&mut self) -> Word
        ensures token { result.token ≡ token (up_to 32 (ahead self.old)) }
        ensures ended { result.ended
            ≡ ltb (self.old.at + length (up_to 32 (ahead self.old))) (length self.old.text.now) }
        ensures same { self.new.text ≡ self.old.text }
        ensures place { self.new.at
            ≡ self.old.at + (length (up_to 32 (ahead self.old)) + from_bool result.ended) }
        ensures line { self.new.line ≡ self.old.line }
        ensures words { cut 32 (ahead self.old)
            ≡ joined result.ended (up_to 32 (ahead self.old)) (cut 32 (ahead self.new)) }
    {
        let word = word_at(self.text, self.at);
        let end = self.at + word.length;
        let ended = end < self.text.len();
        self.at = end + usize::from(ended);
        Word {
            token: word.token,
            ended,
        }
    }
}
