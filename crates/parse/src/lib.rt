// Reading a job text: its program, the checks at `lemmas`, and its lemmas.
#![tactic(auto)]

ghost use Rattle.std.specs.Prelude.{◌≡◌, ◌+◌, ◌*◌, ◌<◌, ◌≤◌, cond, ◌&&◌, IfOk, Ok, [], eqb, leb, length, drop};
ghost use Rattle.lists.specs.Rows.{num};
ghost use Rattle.job.specs.Answers.{answer_of};
ghost use Rattle.job.specs.Limits.{max_steps, max_lemmas, max_names, max_text};
ghost use Rattle.job.specs.Fitness.{both_critical};
ghost use Rattle.job.specs.Table.{first_of};
ghost use Rattle.scan.specs.Lines.{lines};
ghost use Rattle.scan.specs.Iterating.{row_of};
ghost use Rattle.program.specs.Program.{program_of};
ghost use Rattle.parse.specs.Answers.{forgotten, zeros as no_table, table_of, without_lemmas};
ghost use Rattle.parse.specs.Labels.{aim as aim_of, link_step, link as link_all, at_lemmas};
ghost use Rattle.parse.specs.Lemmas.{signed as signed_item, words, lemma, lemma_line, lemma_lines};
ghost use Rattle.parse.specs.Reading.{from_lemmas, reading, read_job};

use fields::Cursor;
use items::Names;
use job::{Fault, Job, Kind, Process, Program, Refusal, Word};
use program::{Draft, ProgramPart, at_line};
use scan::{Line, Lines};

#[tactic(auto, unfolding(crate::specs::Answers::without_lemmas))]
fn without_lemmas(draft: &Draft, program: Program) -> Job
    ensures { result ≡ without_lemmas draft.now program }
{
    Job {
        program,
        labels: draft.labels,
        names: draft.names,
        lemmas: 0,
        lengths: [0; Job::LEMMAS],
        items: [0; Job::LEMMAS * Job::NAMES],
    }
}

// The label of step k among names, looked up among the labels of the steps: a step, counted from 1.
#[tactic(auto, unfolding(crate::specs::Labels::aim, crate::specs::Labels::target_of))]
fn aim(draft: &Draft, names: &[u8; 4 * Job::STEPS], k: usize) -> Result<usize, Fault>
    requires few { draft.now.program.steps ≤ max_steps }
    requires step { k < max_steps }
    ensures aimed { result ≡ aim_of draft.now names.now k }
    ensures small { IfOk result (λ i. i ≤ max_steps) }
{
    let label = scan::part(names, k * 4, k * 4 + 4);
    let Some(i) = scan::find(&draft.labels, draft.program.steps, label) else {
        return Err(Fault::LabelUnknown);
    };
    if draft.program.process[i] == draft.program.process[k] {
        Ok(i + 1)
    } else {
        Err(Fault::LabelOther)
    }
}

// L and then, of an if, M of step k.
#[tactic(auto, unfolding(crate::specs::Labels::link_step, crate::specs::Labels::entered, crate::specs::Answers::then))]
fn link_step(draft: &Draft, program: Program, k: usize) -> Result<Program, Refusal>
    requires few { draft.now.program.steps ≤ max_steps }
    requires step { k < max_steps }
    ensures { result ≡ link_step draft.now k program }
{
    let line = draft.line[k];
    let mut linked = program;
    linked.to[k] = at_line(aim(draft, &draft.to, k), line)? as u16;
    if draft.program.kind[k] == Kind::If as u8 {
        linked.other[k] = at_line(aim(draft, &draft.other, k), line)? as u16;
    }
    Ok(linked)
}

// The labels of all steps, step by step.
fn link(draft: &Draft) -> Result<Program, Refusal>
    requires { draft.now.program.steps ≤ max_steps }
    ensures { result ≡ link_all draft.now draft.now.program.steps }
{
    let mut program = draft.program;
    for k in 0..draft.program.steps {
        program = link_step(draft, program, k)?;
    }
    Ok(program)
}

// What is checked at line n, `lemmas`.
#[tactic(auto, unfolding(crate::specs::Labels::at_lemmas, crate::specs::Labels::started, crate::specs::Answers::then))]
fn at_lemmas(draft: &Draft, n: usize) -> Result<Job, Refusal>
    requires { draft.now.program.steps ≤ max_steps }
    ensures { result ≡ at_lemmas draft.now n }
{
    if draft.program.first_of(Process::A as u8).is_none() {
        return Err(Fault::NoStepOfA.at(n));
    }
    if draft.program.first_of(Process::B as u8).is_none() {
        return Err(Fault::NoStepOfB.at(n));
    }
    let program = link(draft)?;
    if draft.program.both_critical() {
        return Err(Fault::BothCritical.at(n));
    }
    Ok(without_lemmas(draft, program))
}

// Where the name of the word at at begins: behind its `~`.
fn bare_at(s: &[u8], at: usize) -> usize
    requires { at < length s.now }
    ensures { result ≡ cond (eqb (num s.now at) 126) (at + 1) at }
{
    if s[at] == b'~' { at + 1 } else { at }
}

fn signed(negative: bool, i: usize) -> i16
    requires { i ≤ 2 * max_steps }
    ensures { result ≡ signed_item negative i }
{
    if negative { -(i as i16) } else { i as i16 }
}

// The line's end behind k names: 42, or the lemma is counted.
#[tactic(auto, unfolding(crate::specs::Lemmas::lemma))]
fn lemma_end(start: Job, n: usize, k: usize) -> Result<Job, Refusal>
    requires { (start.lemmas < max_lemmas) × (k ≤ max_names) }
    ensures { result ≡ lemma start n k [] }
{
    if k == 0 {
        return Err(Fault::LemmaEmpty.at(n));
    }
    let mut job = start;
    job.lengths[job.lemmas] = k as u8;
    job.lemmas += 1;
    Ok(job)
}

// The lemma of line n, name by name.
fn lemma_of(start: Job, s: &[u8], n: usize) -> Result<Job, Refusal>
    requires room { start.lemmas < max_lemmas }
    requires steps { start.program.steps ≤ max_steps }
    requires variables { start.program.variables ≤ max_steps }
    ensures { result ≡ lemma start n 0 (words s.now) }
{
    let mut job = start;
    let mut k: usize = 0;
    let mut at: usize = 0;
    // A while loop: it moves on by a space or by a name, whose length is found as it is read.
    while at < s.len() {
        if s[at] == b' ' {
            at += 1;
            continue;
        }
        if Job::NAMES <= k {
            return Err(Fault::ManyNames.at(n));
        }
        let mut cursor = Cursor {
            line: n,
            column: bare_at(s, at),
        };
        let Some(i) = items::read_item(&Names::from(&job), s, &mut cursor) else {
            return Err(Fault::NameUnknown.at(n));
        };
        job.items[job.lemmas * Job::NAMES + k] = signed(s[at] == b'~', i);
        k += 1;
        at = cursor.column;
    }
    lemma_end(job, n, k)
}

// Line n behind `lemmas`, whose LF is there or not.
#[tactic(auto, unfolding(crate::specs::Lemmas::lemma_line, crate::specs::Lemmas::whole))]
fn lemma_line(job: Job, line: Line, n: usize) -> Result<Job, Refusal>
    requires steps { job.program.steps ≤ max_steps }
    requires variables { job.program.variables ≤ max_steps }
    ensures { result ≡ lemma_line job (row_of line.entry) n }
{
    at_line(fields::line(line.bytes, line.ended), n)?;
    if Job::LEMMAS <= job.lemmas {
        return Err(Fault::ManyLemmas.at(n));
    }
    lemma_of(job, line.bytes, n)
}

// The lemma lines, which begin at from, behind before lines.
fn lemma_lines(text: &[u8], from: usize, before: usize, start: Job) -> Result<Job, Refusal>
    requires size { length text.now ≤ max_text }
    requires behind { before ≤ from }
    requires steps { start.program.steps ≤ max_steps }
    requires variables { start.program.variables ≤ max_steps }
    ensures { result ≡ lemma_lines start before (lines (drop from text.now)) }
{
    let mut job = start;
    for (i, line) in Lines::new(scan::rest(text, from)).enumerate() {
        job = lemma_line(job, line, before + i + 1)?;
    }
    Ok(job)
}

// What follows the program part.
#[tactic(auto, unfolding(crate::specs::Reading::from_lemmas, crate::specs::Answers::then))]
fn from_lemmas(text: &[u8], part: &ProgramPart) -> Result<Job, Refusal>
    requires { program_of text.now ≡ Ok part.now }
    ensures { result ≡ from_lemmas text.now part.now }
{
    let job = at_lemmas(&part.draft, part.line)?;
    lemma_lines(text, part.at, part.line, job)
}

// Reading a job: the table of its text, or a refusal.
#[tactic(auto, unfolding(crate::specs::Reading::read_job, crate::specs::Reading::reading, crate::specs::Answers::then))]
pub fn read(text: &[u8]) -> Result<Job, Refusal>
    ensures reading { result ≡ reading text.now }
    ensures answer { forgotten (answer_of result) ≡ (read_job text.now).answer }
    ensures table { table_of result ≡ (read_job text.now).table }
{
    let part = program::program(text)?;
    from_lemmas(text, &part)
}

// The table of zeros: a function of its own, so that none is made for an accepted job.
fn zeros() -> Job
    ensures { result ≡ no_table }
{
    let draft = Draft::blank(0, Word::Free as u8);
    without_lemmas(&draft, draft.program)
}

// 'a refused job gives one of zeros': the table for a caller that is given one either way.
pub fn table_of(read: &Result<Job, Refusal>) -> Job
    ensures { result ≡ table_of read.now }
{
    match read {
        Ok(job) => *job,
        Err(_) => zeros(),
    }
}
