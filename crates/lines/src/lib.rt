// Line 1 and the step line (document 01, 'The job text'), read field by field from left to right. Each field's answer is taken apart by
// let .. else, the form that 01 names for it.
#![tactic(auto)]

ghost use Rattle.std.specs.Prelude.{◌≡◌, ◌≤◌, drop};
ghost use Rattle.lines.specs.FirstLine.{value_of, number_at, word_of, first_line};
ghost use Rattle.lines.specs.StepLine.{begun as begun_step, else_line, end_line, goto_line, test_line, kind_line, step_line};

use fields::Cursor;
use job::{Fault, Kind, Word};
use lists::get_or;

// What line 1 says: R, and the word.
#[derive(Clone, Copy, PartialEq, Eq, Debug)]
pub struct FirstLine {
    pub bound: usize,
    pub word: Word,
}

// What a step line says: its kind, where its name ends, V's columns, v, L's columns, and where M starts.
// What a kind has not is 0, as in the definition: an Option for each would only say the kind again.
#[derive(Clone, Copy, PartialEq, Eq, Debug)]
pub struct Step {
    pub kind: Kind,
    pub name: usize,
    pub variable: usize,
    pub equals: usize,
    pub value: u8,
    pub to: usize,
    pub end: usize,
    pub other: usize,
}

#[tactic(auto, unfolding(crate::specs::FirstLine::value_of, lists::specs::Tests::within, lists::specs::Tests::every))]
fn value(b: u8) -> usize
    ensures value { result ≡ value_of b }
    ensures digit { result ≤ 9 }
{
    if b.is_ascii_digit() {
        usize::from(b - b'0')
    } else {
        0
    }
}

#[tactic(auto, unfolding(crate::specs::FirstLine::number_at, lists::specs::Tests::within, lists::specs::Tests::every))]
fn number_at(s: &[u8], column: usize) -> usize
    ensures { result ≡ number_at s.now column }
{
    let a = get_or(s, column, 0);
    let b = get_or(s, column.saturating_add(1), 0);
    if b.is_ascii_digit() {
        value(a) * 10 + value(b)
    } else {
        value(a)
    }
}

// The word of line 1, where R ends at column.
#[tactic(auto, unfolding(crate::specs::FirstLine::word_of))]
fn word_of(s: &[u8], column: usize) -> Word
    ensures { result ≡ word_of (drop column s.now) }
{
    if fields::rest_is(s, column, b" crash") {
        return Word::Crash;
    }
    if fields::rest_is(s, column, b" start") {
        return Word::Start;
    }
    Word::Free
}

// Line 1: `bound R`, and perhaps a word.
#[tactic(auto, unfolding(crate::specs::FirstLine::after, crate::specs::FirstLine::first_line))]
pub fn first_line(s: &[u8], at: Cursor) -> Result<FirstLine, Fault>
    ensures { result ≡ first_line s.now at }
{
    let mut at = at;
    let bound_word = lent::read(fields::bound_word, s, &mut at);
    let Ok(()) = bound_word else {
        return Err(bound_word.unwrap_err());
    };
    let number = at.column;
    let range = lent::read(fields::range, s, &mut at);
    let Ok(()) = range else {
        return Err(range.unwrap_err());
    };
    let word = at.column;
    let bound_end = lent::read(fields::bound_end, s, &mut at);
    let Ok(()) = bound_end else {
        return Err(bound_end.unwrap_err());
    };
    Ok(FirstLine {
        bound: number_at(s, number),
        word: word_of(s, word),
    })
}

#[tactic(auto, unfolding(crate::specs::FirstLine::after, crate::specs::StepLine::else_line))]
fn else_line(s: &[u8], at: Cursor, step: Step) -> Result<Step, Fault>
    ensures { result ≡ else_line s.now at step }
{
    let mut at = at;
    let else_word = lent::read(fields::else_word, s, &mut at);
    let Ok(()) = else_word else {
        return Err(else_word.unwrap_err());
    };
    let other = at.column;
    let label = lent::read(fields::other_label, s, &mut at);
    let Ok(()) = label else {
        return Err(label.unwrap_err());
    };
    Ok(Step { other, ..step })
}

#[tactic(auto, unfolding(crate::specs::FirstLine::after, crate::specs::StepLine::end_line))]
fn end_line(s: &[u8], at: Cursor, step: Step) -> Result<Step, Fault>
    ensures { result ≡ end_line s.now at step }
{
    let mut at = at;
    let end = lent::read(fields::step_end, s, &mut at);
    let Ok(()) = end else {
        return Err(end.unwrap_err());
    };
    Ok(step)
}

#[tactic(auto, unfolding(crate::specs::FirstLine::after, crate::specs::StepLine::goto_line))]
fn goto_line(s: &[u8], at: Cursor, step: Step) -> Result<Step, Fault>
    ensures { result ≡ goto_line s.now at step }
{
    let mut at = at;
    let goto_word = lent::read(fields::goto_word, s, &mut at);
    let Ok(()) = goto_word else {
        return Err(goto_word.unwrap_err());
    };
    let to = at.column;
    let label = lent::read(fields::to_label, s, &mut at);
    let Ok(()) = label else {
        return Err(label.unwrap_err());
    };
    let step = Step {
        to,
        end: at.column,
        ..step
    };
    match step.kind {
        Kind::If => else_line(s, at, step),
        _ => end_line(s, at, step),
    }
}

#[tactic(auto, unfolding(crate::specs::FirstLine::after, crate::specs::StepLine::test_line, crate::specs::StepLine::bit_of))]
fn test_line(s: &[u8], at: Cursor, step: Step) -> Result<Step, Fault>
    ensures { result ≡ test_line s.now at step }
{
    let mut at = at;
    let variable = at.column;
    let word = lent::read(fields::variable, s, &mut at);
    let Ok(()) = word else {
        return Err(word.unwrap_err());
    };
    let equals = at.column;
    let sign = lent::read(fields::equals, s, &mut at);
    let Ok(()) = sign else {
        return Err(sign.unwrap_err());
    };
    let value = u8::from(get_or(s, at.column, 0) == b'1');
    let bit = lent::read(fields::bit, s, &mut at);
    let Ok(()) = bit else {
        return Err(bit.unwrap_err());
    };
    goto_line(
        s,
        at,
        Step {
            variable,
            equals,
            value,
            ..step
        },
    )
}

fn begun(kind: Kind, name: usize) -> Step
    ensures { result ≡ begun_step kind name }
{
    Step {
        kind,
        name,
        variable: 0,
        equals: 0,
        value: 0,
        to: 0,
        end: 0,
        other: 0,
    }
}

// What follows a name and its space, by kind; the space behind `maybe` and `critical` is that of ` goto `.
#[tactic(auto, unfolding(crate::specs::StepLine::kind_line))]
fn kind_line(s: &[u8], at: Cursor, name: usize) -> Result<Step, Fault>
    ensures { result ≡ kind_line s.now at name }
{
    if scan::follows(s, at.column, b"maybe ") {
        let behind = Cursor {
            column: at.column + 5,
            ..at
        };
        return goto_line(s, behind, begun(Kind::Maybe, name));
    }
    if scan::follows(s, at.column, b"critical ") {
        let behind = Cursor {
            column: at.column + 8,
            ..at
        };
        return goto_line(s, behind, begun(Kind::Critical, name));
    }
    if scan::follows(s, at.column, b"if ") {
        let behind = Cursor {
            column: at.column + 3,
            ..at
        };
        return test_line(s, behind, begun(Kind::If, name));
    }
    test_line(s, at, begun(Kind::Assign, name))
}

// A step line: its name, 12, 13, and then by kind. The steps so far have count labels.
#[tactic(auto, unfolding(crate::specs::FirstLine::after, crate::specs::StepLine::step_line, crate::specs::StepLine::fresh))]
pub fn step_line(labels: &[u8], count: usize, s: &[u8], at: Cursor) -> Result<Step, Fault>
    ensures { result ≡ step_line labels.now count s.now at }
{
    let mut at = at;
    let word = scan::word(s, at.column, b' ');
    let name = lent::read(fields::name, s, &mut at);
    let Ok(()) = name else {
        return Err(name.unwrap_err());
    };
    let end = at.column;
    if scan::find(labels, count, word).is_some() {
        return Err(Fault::NameUsed);
    }
    let space = lent::read(fields::space, s, &mut at);
    let Ok(()) = space else {
        return Err(space.unwrap_err());
    };
    kind_line(s, at, end)
}
