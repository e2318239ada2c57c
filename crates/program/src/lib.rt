// The program part of a job text: line 1 and the program lines up to `lemmas`, entered into a draft of the table.
#![tactic(auto)]

ghost use Rattle.std.specs.Prelude.{◌≡◌, ◌+◌, ◌<◌, ◌≤◌, length, drop};
ghost use Rattle.job.specs.Limits.{max_steps, max_text};
ghost use Rattle.scan.specs.Lines.{lines, size};
ghost use Rattle.scan.specs.Iterating.{row_of, lines_left};
ghost use Rattle.program.specs.Draft.{put4, blank as blank_draft, mention as mention_word, process_of, enter as enter_step, add_step};
ghost use Rattle.program.specs.ProgramLine.{is_lemmas, is_comment, program_line, line_of, goes_on, draft_of};
ghost use Rattle.program.specs.Program.{placed, program as program_from, from_line1, program_of};

use fields::Cursor;
use job::{Fault, Job, Kind, Process, Program, Refusal};
use lines::Step;
use lists::get_or;
use scan::{Line, Lines};

// The table while its program is read. Labels L and M stay names, and each step keeps its line, until `lemmas`.
#[derive(Clone, Copy)]
pub struct Draft {
    pub program: Program,
    pub labels: [u8; 4 * Job::STEPS],
    pub names: [u8; 4 * Job::STEPS],
    pub to: [u8; 4 * Job::STEPS],
    pub other: [u8; 4 * Job::STEPS],
    pub line: [usize; Job::STEPS],
}

// A program part that is read: its draft, the number of the line `lemmas`, and the byte behind it.
#[derive(Clone, Copy)]
pub struct ProgramPart {
    pub draft: Draft,
    pub line: usize,
    pub at: usize,
}

// The word becomes name k.
fn put(names: &mut [u8; 4 * Job::STEPS], k: usize, word: &[u8])
    requires { k < max_steps }
    ensures { names.new ≡ put4 names.old k word.now }
{
    names[k * 4] = get_or(word, 0, 0);
    names[k * 4 + 1] = get_or(word, 1, 0);
    names[k * 4 + 2] = get_or(word, 2, 0);
    names[k * 4 + 3] = get_or(word, 3, 0);
}

#[tactic(auto, unfolding(crate::specs::Draft::process_of))]
fn process_of(b: u8) -> u8
    ensures { result ≡ process_of b }
{
    let process = if b == b'A' { Process::A } else { Process::B };
    process as u8
}

impl Draft {
    // The draft of no steps.
    #[tactic(auto, unfolding(crate::specs::Draft::blank))]
    pub fn blank(bound: usize, word: u8) -> Draft
        ensures { result ≡ blank_draft bound word }
    {
        Draft {
            program: Program {
                bound,
                word,
                steps: 0,
                variables: 0,
                process: [0; Job::STEPS],
                kind: [0; Job::STEPS],
                to: [0; Job::STEPS],
                other: [0; Job::STEPS],
                variable: [0; Job::STEPS],
                value: [0; Job::STEPS],
            },
            labels: [0; 4 * Job::STEPS],
            names: [0; 4 * Job::STEPS],
            to: [0; 4 * Job::STEPS],
            other: [0; 4 * Job::STEPS],
            line: [0; Job::STEPS],
        }
    }

    // The next step has the variable of this name: the first of that name, or a new one.
    #[tactic(auto, unfolding(crate::specs::Draft::mention_at))]
    fn mention(&mut self, name: &[u8])
        requires within { self.old.program.variables ≤ self.old.program.steps }
        requires room { self.old.program.steps < max_steps }
        ensures mentioned { self.new ≡ mention_word self.old name.now }
        ensures steps { self.new.program.steps ≡ self.old.program.steps }
    {
        let k = self.program.steps;
        let n = self.program.variables;
        if let Some(x) = scan::find(&self.names, n, name) {
            self.program.variable[k] = (x + 1) as u8;
        } else {
            put(&mut self.names, n, name);
            self.program.variables = n + 1;
            self.program.variable[k] = (n + 1) as u8;
        }
    }

    // The step of line n is entered.
    #[tactic(auto, unfolding(crate::specs::Draft::enter, crate::specs::Draft::other_end))]
    fn enter(&mut self, s: &[u8], step: Step, n: usize)
        requires { self.old.program.steps < max_steps }
        ensures { self.new ≡ enter_step self.old s.now step n }
    {
        let k = self.program.steps;
        let other_end = if step.kind == Kind::If { s.len() } else { 0 };
        put(&mut self.labels, k, scan::part(s, 0, step.name));
        put(&mut self.to, k, scan::part(s, step.to, step.end));
        put(&mut self.other, k, scan::part(s, step.other, other_end));
        self.line[k] = n;
        self.program.process[k] = process_of(get_or(s, 0, 0));
        self.program.kind[k] = step.kind as u8;
        self.program.value[k] = step.value;
        self.program.steps = k + 1;
    }

    #[tactic(auto, unfolding(crate::specs::Draft::add_step))]
    fn add_step(&mut self, s: &[u8], step: Step, n: usize)
        requires within { self.old.program.variables ≤ self.old.program.steps }
        requires room { self.old.program.steps < max_steps }
        ensures { self.new ≡ add_step self.old s.now step n }
    {
        if matches!(step.kind, Kind::Assign | Kind::If) {
            self.mention(scan::part(s, step.variable, step.equals));
        }
        self.enter(s, step, n);
    }
}

#[tactic(auto, unfolding(crate::specs::ProgramLine::is_lemmas, lists::specs::Pieces::is), using(lists::proofs::PieceLaws::is_equal))]
pub fn is_lemmas(s: &[u8]) -> bool
    ensures { result ≡ is_lemmas s.now }
{
    s == b"lemmas".as_slice()
}

#[tactic(auto, unfolding(crate::specs::ProgramLine::is_comment), using(lists::proofs::PieceLaws::starts_is))]
pub fn is_comment(s: &[u8]) -> bool
    ensures { result ≡ is_comment s.now }
{
    s.starts_with(b"~")
}

// Line n, which has passed 2, 3, 4, is entered into the draft, which stays where it is: whether lines go on, as they do but at `lemmas`.
#[tactic(auto, unfolding(crate::specs::ProgramLine::program_line, crate::specs::ProgramLine::stepped))]
fn program_line(draft: &mut Draft, s: &[u8], n: usize) -> Result<bool, Fault>
    requires within { draft.old.program.variables ≤ draft.old.program.steps }
    requires few { draft.old.program.steps ≤ max_steps }
    ensures more { result ≡ goes_on (program_line draft.old s.now n) }
    ensures entered { draft.new ≡ draft_of (program_line draft.old s.now n) draft.old }
{
    if is_lemmas(s) {
        return Ok(false);
    }
    if is_comment(s) {
        return Ok(true);
    }
    let k = draft.program.steps;
    if Job::STEPS <= k {
        return Err(Fault::ManySteps);
    }
    let step = lines::step_line(&draft.labels, k, s, Cursor { line: n, column: 0 })?;
    draft.add_step(s, step, n);
    Ok(true)
}

// What is read of line n, or the refusal of its fault there.
pub fn at_line<T>(read: Result<T, Fault>, n: usize) -> Result<T, Refusal>
    ensures { result ≡ placed n read }
{
    read.map_err(|fault| fault.at(n))
}

// Line n, whose LF is there or not.
#[tactic(auto, unfolding(crate::specs::ProgramLine::whole))]
fn line_of(draft: &mut Draft, line: Line, n: usize) -> Result<bool, Fault>
    requires within { draft.old.program.variables ≤ draft.old.program.steps }
    requires few { draft.old.program.steps ≤ max_steps }
    ensures more { result ≡ goes_on (line_of draft.old (row_of line.entry) n) }
    ensures entered { draft.new ≡ draft_of (line_of draft.old (row_of line.entry) n) draft.old }
{
    fields::line(line.bytes, line.ended)?;
    program_line(draft, line.bytes, n)
}

// The program lines after line 1, which begin at from.
fn program_lines(lines: Lines, from: usize, start: Draft) -> Result<ProgramPart, Refusal>
    requires first { 1 ≤ from }
    requires size { from + size (lines_left lines) ≤ max_text + 1 }
    requires within { start.program.variables ≤ start.program.steps }
    requires few { start.program.steps ≤ max_steps }
    ensures { result ≡ program_from start from 1 (lines_left lines.entry) }
{
    let mut draft = start;
    let mut n: usize = 1;
    let mut at = from;
    // Counted here, not by `enumerate`: behind the last line the refusal tells the number too, and `at` is where the lemma lines begin.
    for line in lines {
        n += 1;
        at += line.bytes.len() + 1;
        let more = at_line(line_of(&mut draft, line, n), n)?;
        if !more {
            return Ok(ProgramPart { draft, line: n, at });
        }
    }
    Err(Fault::NoLemmas.at(n + 1))
}

// Line 1 and the lines behind it.
fn from_line_1(text: &[u8]) -> Result<ProgramPart, Refusal>
    requires size { length text.now ≤ max_text }
    ensures { result ≡ from_line1 (lines text.now) }
{
    let mut lines = Lines::new(text);
    let Some(line) = lines.next() else {
        return Err(Fault::TextSize.into());
    };
    at_line(fields::line(line.bytes, line.ended), 1)?;
    let at = Cursor { line: 1, column: 0 };
    let first = at_line(lines::first_line(line.bytes, at), 1)?;
    let draft = Draft::blank(first.bound, first.word as u8);
    program_lines(lines, line.bytes.len() + 1, draft)
}

// The program part of a text.
#[tactic(auto, unfolding(crate::specs::Program::program_of, lists::specs::Tests::within, lists::specs::Tests::every))]
pub fn program(text: &[u8]) -> Result<ProgramPart, Refusal>
    ensures { result ≡ program_of text.now }
{
    if !(1..=Job::TEXT).contains(&text.len()) {
        return Err(Fault::TextSize.into());
    }
    from_line_1(text)
}
