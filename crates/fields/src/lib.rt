// The field readers, each lent the line and handed a cursor by value: the answer is the cursor moved on, or what is turned away.
// `lent` has them lent the cursor.
#![tactic(auto)]

ghost use Rattle.std.specs.Prelude.{◌≡◌, length, drop};
ghost use Rattle.lists.specs.Pieces.{is};
ghost use Rattle.scan.specs.Bytes.{alnum as is_alnum, all_of, headed};
ghost use Rattle.fields.specs.Fields.{word_field, name_field, variable_field, to_field, other_field};
ghost use Rattle.fields.specs.Fields.{fixed_field, space_field, equals_field, goto_field, else_field, bound_field};
ghost use Rattle.fields.specs.Fields.{bit_field, range_field, end_field, step_end_field, whole_line};
ghost use Rattle.fields.specs.Fields.{is_word as word_of_line1, bound_end_field};
ghost use Rattle.scan.specs.Lines.{row};

use job::Fault;
use lists::get_or;

// A place in a text: the line's number, and a column of the line.
#[derive(Clone, Copy, PartialEq, Eq, Debug)]
pub struct Cursor {
    pub line: usize,
    pub column: usize,
}

impl Cursor {
    // Bytes in a line before its LF.
    pub const COLUMNS: usize = 1022;
}

#[tactic(auto, unfolding(scan::specs::Bytes::alnum, lists::specs::Tests::within, lists::specs::Tests::every))]
fn alnum(b: u8) -> bool
    ensures { result ≡ is_alnum b }
{
    b.is_ascii_alphanumeric()
}

#[tactic(auto, unfolding(scan::specs::Bytes::all_of))]
fn all_alnum(word: &[u8]) -> bool
    ensures { result ≡ all_of is_alnum word.now }
{
    word.iter().all(|b| alnum(*b))
}

// Letters or digits, the first from lo to hi.
#[tactic(auto, unfolding(scan::specs::Bytes::headed))]
fn is_headed(word: &[u8], lo: u8, hi: u8) -> bool
    ensures { result ≡ headed lo hi word.now }
{
    let Some((first, rest)) = word.split_first() else {
        return false;
    };
    scan::within(*first, lo, hi) && all_alnum(rest)
}

// A name up to the first stop or the line's end, of at most most letters or digits, the first from lo to hi.
#[tactic(auto, unfolding(crate::specs::Fields::word_field))]
fn word(
    s: &[u8],
    at: Cursor,
    stop: u8,
    most: usize,
    lo: u8,
    hi: u8,
    long: Fault,
    ill: Fault,
) -> Result<Cursor, Fault>
    ensures { result ≡ word_field stop most lo hi long ill s.now at }
{
    let word = scan::word(s, at.column, stop);
    if most < word.len() {
        return Err(long);
    }
    if !is_headed(word, lo, hi) {
        return Err(ill);
    }
    Ok(Cursor {
        column: at.column + word.len(),
        ..at
    })
}

pub fn name(s: &[u8], at: Cursor) -> Result<Cursor, Fault>
    ensures { result ≡ name_field s.now at }
{
    word(s, at, b' ', 4, b'A', b'B', Fault::NameLong, Fault::NameIll)
}

pub fn variable(s: &[u8], at: Cursor) -> Result<Cursor, Fault>
    ensures { result ≡ variable_field s.now at }
{
    word(
        s,
        at,
        b'=',
        2,
        b'a',
        b'z',
        Fault::VariableLong,
        Fault::VariableIll,
    )
}

pub fn to_label(s: &[u8], at: Cursor) -> Result<Cursor, Fault>
    ensures { result ≡ to_field s.now at }
{
    word(s, at, b' ', 4, b'A', b'B', Fault::ToIll, Fault::ToIll)
}

pub fn other_label(s: &[u8], at: Cursor) -> Result<Cursor, Fault>
    ensures { result ≡ other_field s.now at }
{
    word(s, at, 10, 4, b'A', b'B', Fault::OtherIll, Fault::OtherIll)
}

#[tactic(auto, unfolding(crate::specs::Fields::fixed_field))]
fn fixed(s: &[u8], at: Cursor, w: &[u8], fault: Fault) -> Result<Cursor, Fault>
    ensures { result ≡ fixed_field w.now fault s.now at }
{
    if !scan::follows(s, at.column, w) {
        return Err(fault);
    }
    Ok(Cursor {
        column: at.column + w.len(),
        ..at
    })
}

pub fn space(s: &[u8], at: Cursor) -> Result<Cursor, Fault>
    ensures { result ≡ space_field s.now at }
{
    fixed(s, at, b" ", Fault::NoSpace)
}

pub fn equals(s: &[u8], at: Cursor) -> Result<Cursor, Fault>
    ensures { result ≡ equals_field s.now at }
{
    fixed(s, at, b"=", Fault::NoEquals)
}

pub fn goto_word(s: &[u8], at: Cursor) -> Result<Cursor, Fault>
    ensures { result ≡ goto_field s.now at }
{
    fixed(s, at, b" goto ", Fault::NoGoto)
}

pub fn else_word(s: &[u8], at: Cursor) -> Result<Cursor, Fault>
    ensures { result ≡ else_field s.now at }
{
    fixed(s, at, b" else ", Fault::NoElse)
}

pub fn bound_word(s: &[u8], at: Cursor) -> Result<Cursor, Fault>
    ensures { result ≡ bound_field s.now at }
{
    fixed(s, at, b"bound ", Fault::FirstLine)
}

#[tactic(auto, unfolding(crate::specs::Fields::bit_field))]
pub fn bit(s: &[u8], at: Cursor) -> Result<Cursor, Fault>
    ensures { result ≡ bit_field s.now at }
{
    let byte = get_or(s, at.column, 0);
    if !scan::within(byte, b'0', b'1') {
        return Err(Fault::Value);
    }
    Ok(Cursor {
        column: at.column + 1,
        ..at
    })
}

// R, of one digit or two: the second is read where a digit follows.
#[tactic(auto, unfolding(crate::specs::Fields::range_field, lists::specs::Tests::within, lists::specs::Tests::every))]
pub fn range(s: &[u8], at: Cursor) -> Result<Cursor, Fault>
    ensures { result ≡ range_field s.now at }
{
    if !scan::within(get_or(s, at.column, 0), b'1', b'9') {
        return Err(Fault::FirstLine);
    }
    let digits = if get_or(s, at.column + 1, 0).is_ascii_digit() {
        2
    } else {
        1
    };
    Ok(Cursor {
        column: at.column + digits,
        ..at
    })
}

#[tactic(auto, unfolding(crate::specs::Fields::end_field))]
pub fn step_end(s: &[u8], at: Cursor) -> Result<Cursor, Fault>
    ensures { result ≡ step_end_field s.now at }
{
    if at.column < s.len() {
        return Err(Fault::TextAfter);
    }
    Ok(at)
}

// What is left of the line is this word.
#[tactic(auto, unfolding(lists::specs::Pieces::is), using(lists::proofs::PieceLaws::is_equal))]
pub fn rest_is(s: &[u8], column: usize, w: &[u8]) -> bool
    ensures { result ≡ is w.now (drop column s.now) }
{
    scan::rest(s, column) == w
}

// What is left of line 1 is its word.
fn is_word(s: &[u8], column: usize) -> bool
    ensures { result ≡ word_of_line1 (drop column s.now) }
{
    rest_is(s, column, b" start") || rest_is(s, column, b" crash")
}

// Behind R: the line's end, or its word.
#[tactic(auto, unfolding(crate::specs::Fields::bound_end_field))]
pub fn bound_end(s: &[u8], at: Cursor) -> Result<Cursor, Fault>
    ensures { result ≡ bound_end_field s.now at }
{
    if at.column < s.len() && !is_word(s, at.column) {
        return Err(Fault::FirstLine);
    }
    Ok(Cursor {
        column: at.column + scan::rest(s, at.column).len(),
        ..at
    })
}

// The line as a whole, whose LF is there or not.
#[tactic(auto, unfolding(crate::specs::Fields::whole_line))]
pub fn line(s: &[u8], ended: bool) -> Result<(), Fault>
    ensures { result ≡ whole_line (row s.now ended) }
{
    if Cursor::COLUMNS < s.len() {
        return Err(Fault::LineLong);
    }
    if !scan::plain(s) {
        return Err(Fault::LineByte);
    }
    if !ended {
        return Err(Fault::LineOpen);
    }
    Ok(())
}
