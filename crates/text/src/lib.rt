// What the programs print (document 01, 'A job in full'), made in lent buffers. A page is written by methods of its own: `write!` says what
// it wrote where it succeeds, and not that it succeeds where there is room.
#![tactic(auto)]

mod numeral; // numeral.rt: numbers in decimal
mod told; // told.rt: one number of a clause
mod sentence; // sentence.rt: a line of two numbers
mod run; // run.rt: the lines of a run
mod comments; // comments.rt: the comments of a job text

ghost use Rattle.std.specs.Prelude.{◌≡◌, ℕ, ◌+◌, ◌*◌, ◌≤◌, ◌<◌, leb, List, length};
ghost use Rattle.text.specs.Texts.{texted, with_texts, PutsEach};
ghost use Rattle.text.specs.Dimacs.{number_room, number_text};
ghost use Rattle.text.specs.Whole.{printed, with_text};
ghost use Rattle.text.specs.Lines.{sentence, header, refusal_line, refused};
ghost use Rattle.text.specs.RunText.{run_line, run_lines};
ghost use Rattle.text.specs.Comments.{comments};

use comments::{lines_behind_first, put_remarks, remarks_fit};
use job::{Job, Refusal};
use lists::get_or;
use put::Page;
use run::try_put_line;
use sentence::put_sentence;
use told::try_put_told;

// A number of 32 bits takes at most: a sign, ten digits, the byte behind them.
pub const NUMBER: usize = 12;

// A header or a refusal takes at most: words of eight bytes, twenty digits each, LF.
pub const LINE: usize = 57;

// How many whole texts were written, and their bytes.
#[derive(Clone, Copy, PartialEq, Eq, Debug)]
pub struct Texted {
    pub count: usize,
    pub bytes: usize,
}

// So many bytes more go onto the page.
fn has_room(page: &Page, n: usize) -> bool
    ensures { result ≡ leb (page.now.end + n) (length page.now.out.now) }
{
    page.end <= page.out.len() && n <= page.out.len() - page.end
}

// Texts one behind the other: whole ones, while the next one fits. `put` puts text i where it has room, and tells whether it had.
fn put_texts<F: Fn(&mut Page<'_>, usize) -> bool>(n: usize, out: &mut [u8], put: F) -> Texted
    requires { (page : _) (i : _) → i < n → F.pre put page i }
    ensures value { (most : ℕ) (text : ℕ → List ℕ) → PutsEach n most text (F.post put)
        → (result ≡ texted n text out.old) × (out.new ≡ with_texts n text out.old) }
    ensures all { (most : ℕ) (text : ℕ → List ℕ) → PutsEach n most text (F.post put) → n * most ≤ length out.old → result.count ≡ n }
{
    let mut page = Page::new(out);
    for count in 0..n {
        if !put(&mut page, count) {
            return Texted {
                count,
                bytes: page.end,
            };
        }
    }
    Texted {
        count: n,
        bytes: page.end,
    }
}

// The text of clauses: whole numbers while the next one fits. A buffer of as many bytes a number as the longest one takes holds all.
pub fn numbers_text(numbers: &[i32], out: &mut [u8]) -> Texted
    ensures value { (result ≡ texted (length numbers.now) (number_text numbers.now) out.old)
        × (out.new ≡ with_texts (length numbers.now) (number_text numbers.now) out.old) }
    ensures count_value { length numbers.now * number_room ≤ length out.old → result.count ≡ length numbers.now }
{
    put_texts(numbers.len(), out, |page, i| {
        try_put_told(page, get_or(numbers, i, 0))
    })
}

// A text goes into the buffer whole, or nothing of it does: how many bytes were written, or that the buffer is short and as it was.
#[tactic(auto, unfolding(crate::specs::Whole::printed, crate::specs::Whole::with_text))]
fn give(text: &[u8], out: &mut [u8]) -> Option<usize>
    ensures { (result ≡ printed text.now out.old) × (out.new ≡ with_text text.now out.old) }
{
    if out.len() < text.len() {
        return None;
    }
    out[..text.len()].copy_from_slice(text);
    Some(text.len())
}

// A line of two numbers, each behind its word, given in the same way.
fn give_sentence(first: &[u8], x: usize, second: &[u8], y: usize, out: &mut [u8]) -> Option<usize>
    requires { (length first.now ≤ 8) × (length second.now ≤ 8) }
    ensures { (result ≡ printed (sentence first.now x second.now y) out.old)
        × (out.new ≡ with_text (sentence first.now x second.now y) out.old) }
{
    let mut line = [0u8; LINE];
    let mut page = Page::new(&mut line);
    put_sentence(&mut page, first, x, second, y);
    let end = page.end;
    give(&line[..end], out)
}

// `p cnf V C`.
pub fn header_text(variables: usize, clauses: usize, out: &mut [u8]) -> Option<usize>
    ensures { (result ≡ printed (header variables clauses) out.old) × (out.new ≡ with_text (header variables clauses) out.old) }
{
    give_sentence(b"p cnf ", variables, b" ", clauses, out)
}

// `refused N at P`, of any number and place.
pub fn refusal_line_text(number: u8, place: usize, out: &mut [u8]) -> Option<usize>
    ensures { (result ≡ printed (refusal_line number place) out.old) × (out.new ≡ with_text (refusal_line number place) out.old) }
{
    give_sentence(b"refused ", usize::from(number), b" at ", place, out)
}

// The same of a row of the table.
pub fn refusal_text(refusal: Refusal, out: &mut [u8]) -> Option<usize>
    ensures { (result ≡ printed (refused refusal) out.old) × (out.new ≡ with_text (refused refusal) out.old) }
{
    refusal_line_text(refusal.fault.number(), refusal.place, out)
}

// The lines of a run: whole ones while the next one fits.
pub fn run_text(j: Job, run: &[u8], out: &mut [u8]) -> Texted
    ensures { (result ≡ texted (run_lines j) (run_line j run.now) out.old)
        × (out.new ≡ with_texts (run_lines j) (run_line j run.now) out.old) }
{
    if Job::BOUND < j.program.bound || Job::STEPS < j.program.variables {
        return Texted { count: 0, bytes: 0 };
    }
    put_texts(j.program.bound + 1, out, |page, t| {
        try_put_line(page, &j, run, t)
    })
}

// The comments of a job text's program.
pub fn comment_text(text: &[u8], out: &mut [u8]) -> Option<usize>
    ensures { (result ≡ printed (comments text.now) out.old) × (out.new ≡ with_text (comments text.now) out.old) }
{
    if !remarks_fit(lines_behind_first(text), out.len()) {
        return None;
    }
    let mut page = Page::new(out);
    put_remarks(&mut page, lines_behind_first(text));
    Some(page.end)
}
