// Checking a reply: its lines and numbers are read by a reader, its values are marked in the working buffer.
#![tactic(auto)]

ghost use Rattle.std.specs.Prelude.{◌≡◌, cond, length};
ghost use Rattle.lists.specs.Rows.{num};
ghost use Rattle.lists.specs.Pieces.{cut};
ghost use Rattle.reader.specs.Reader.{ahead};
ghost use Rattle.job.specs.Literals.{place};
ghost use Rattle.reply.specs.Said.{mark, marks};
ghost use Rattle.reply.specs.Lines.{comment, more, opening, say_in, numbers_in, value_line_in, value_lines_in, closing};
ghost use Rattle.reply.specs.Reply.{heard_in, missing, values_read};
ghost use Rattle.reply.specs.Check.{blank, checked};
ghost use Rattle.lists.specs.Places.{found};
ghost use Rattle.reply.specs.Answers.{outcome, settled, part_of, opened_of, told_of, heard_of, cleaned};

use fit::FitJob;
use job::{Fault, Job, Literal, Refusal};
use reader::{Line, Reader};
use tokens::{Kind, Token};

// The longest reply.
const MOST_BYTES: usize = 16777216;

// What a number, or a line of them, came to where it is no fault.
#[derive(Clone, Copy, PartialEq, Eq, Debug)]
enum Progress {
    // More are to come.
    More,
    // The 0 closed them.
    Closed,
}

// The working buffer below is what is lent of it: a byte for each variable, in which a number that came has left its mark. A struct of its
// own would hold nothing beside it.
// The loops go from one line or word to the next, wherever the reader finds it: no range counts them.

// Up to the line behind `s SATISFIABLE`.
fn read_opening(reader: &mut Reader<'_>) -> Result<(), Refusal>
    ensures { opened_of result reader.new ≡ opening reader.old.line (cut 10 (ahead reader.old)) }
{
    loop {
        let line = reader.next_line();
        if !line.ended {
            return Err(Fault::ReplyForm.at(line.number));
        }
        match line.kind {
            Kind::Comment => {}
            Kind::Satisfiable => {
                return Ok(());
            }
            Kind::Unsatisfiable => {
                return Err(Fault::Unsatisfiable.at(line.number));
            }
            _ => {
                return Err(Fault::ReplyForm.at(line.number));
            }
        }
    }
}

fn place_and_mark(literal: Literal) -> (usize, u8)
    ensures place { result.0 ≡ place literal }
    ensures mark { result.1 ≡ mark literal }
{
    match literal {
        Literal::On(place) => (place, 1),
        Literal::Off(place) => (place, 2),
    }
}

// One word: its variable is marked.
#[tactic(auto, using(crate::proofs::LineLaws::say_past, crate::proofs::LineLaws::say_twice))]
fn mark(token: Token, work: &mut [u8]) -> Result<Progress, Fault>
    ensures { part_of result work.new ≡ say_in marks (length work.old) work.old token }
{
    match token {
        Token::Bad => Err(Fault::ReplyForm),
        Token::Zero => Ok(Progress::Closed),
        Token::Number { literal, ends } => {
            let (place, mark) = place_and_mark(literal);
            if work.len() <= place {
                return Err(Fault::NumberPast);
            }
            if work[place] != 0 {
                return Err(Fault::NumberTwice);
            }
            if !ends {
                return Err(Fault::ReplyForm);
            }
            work[place] = mark;
            Ok(Progress::More)
        }
    }
}

// The words of a line.
fn read_numbers(words: &[u8], work: &mut [u8]) -> Result<Progress, Fault>
    ensures { part_of result work.new ≡ numbers_in marks (length work.old) work.old (cut 32 words.now) }
{
    let mut reader = Reader::new(words);
    loop {
        let word = reader.next_word();
        let progress = mark(word.token, &mut *work)?;
        if !word.ended {
            return Ok(progress);
        }
        let Progress::More = progress else {
            return Err(Fault::ReplyForm);
        };
    }
}

// A line of `v` and numbers, or a comment, which says nothing.
fn read_value_line(line: Line<'_>, work: &mut [u8]) -> Result<Progress, Fault>
    ensures { part_of result work.new ≡
        cond (comment line.entry.text.now) (more work.old)
        (value_line_in marks (length work.old) work.old line.entry.text.now) }
{
    match line.kind {
        Kind::Comment => Ok(Progress::More),
        Kind::Values => read_numbers(&line.text[2..], work),
        _ => Err(Fault::ReplyForm),
    }
}

// The lines of `v`, up to the line behind the closing 0.
fn read_values(reader: &mut Reader<'_>, work: &mut [u8]) -> Result<(), Refusal>
    ensures { told_of result reader.new work.new
        ≡ value_lines_in marks (length work.old) reader.old.line work.old (cut 10 (ahead reader.old)) }
{
    loop {
        let line = reader.next_line();
        let progress = read_value_line(line, &mut *work).map_err(|fault| fault.at(line.number))?;
        if !line.ended {
            return Err(Fault::ReplyForm.at(line.number));
        }
        let Progress::More = progress else {
            return Ok(());
        };
    }
}

// Only `c` lines follow; or the number of the first line that is none.
fn read_closing(reader: &mut Reader<'_>) -> Option<usize>
    ensures { result ≡ closing reader.old.line (cut 10 (ahead reader.old)) }
{
    loop {
        let line = reader.next_line();
        if !line.ended {
            if line.text.is_empty() {
                return None;
            }
            return Some(line.number);
        }
        let Kind::Comment = line.kind else {
            return Some(line.number);
        };
    }
}

// The form of a whole reply; its numbers are marked.
fn hear(reply: &[u8], work: &mut [u8]) -> Result<(), Refusal>
    ensures { heard_of result work.new ≡ heard_in marks (length work.old) work.old reply.now }
{
    let mut reader = Reader::new(reply);
    read_opening(&mut reader)?;
    read_values(&mut reader, &mut *work)?;
    match read_closing(&mut reader) {
        None => Ok(()),
        Some(line) => Err(Fault::ReplyForm.at(line)),
    }
}

fn clear(work: &mut [u8])
    ensures { work.new ≡ blank (length work.old) work.old }
{
    work.fill(0);
}

// Marks become values, up to the first that is missing.
fn settle(work: &mut [u8]) -> Option<usize>
    ensures found { result ≡ found (length work.old) (missing (length work.old) (num work.old)) }
    ensures buffer { work.new ≡ cleaned (missing (length work.old) (num work.old)) work.old }
{
    for i in 0..work.len() {
        if work[i] == 0 {
            return Some(i);
        }
        if work[i] != 1 {
            work[i] = 0;
        }
    }
    None
}

// The values of a reply, or its refusal of 61 to 64 or 66.
fn read_reply(reply: &[u8], work: &mut [u8]) -> Result<(), Refusal>
    ensures { outcome result work.new ≡ settled (length work.old) work.old (values_read (length work.old) reply.now) }
{
    clear(&mut *work);
    if let Err(refusal) = hear(reply, &mut *work) {
        clear(&mut *work);
        return Err(refusal);
    }
    if let Some(place) = settle(&mut *work) {
        clear(&mut *work);
        return Err(Fault::NumberMissing.at(place + 1));
    }
    Ok(())
}

// A reply to the clauses of a job.
#[tactic(auto, using(crate::proofs::CheckLaws::is_51, crate::proofs::CheckLaws::is_60))]
pub fn check(j: Job, reply: &[u8], work: &mut [u8]) -> Result<(), Refusal>
    ensures { outcome result work.new ≡ checked j reply.now work.old }
{
    let fit = FitJob::try_from(j)?;
    let header = totals::header_of(&fit);
    if work.len() < header.variables {
        return Err(Fault::BufferShort.into());
    }
    if MOST_BYTES < reply.len() {
        return Err(Fault::ReplyLong.into());
    }
    let values = &mut work[..header.variables];
    read_reply(reply, &mut *values)?;
    match cnf::false_clause(j, values)? {
        Some(clause) => Err(Fault::ClauseFalse.at(clause)),
        None => Ok(()),
    }
}
