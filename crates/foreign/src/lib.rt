// The checker, reading off and run to values for a caller in C: the tests hold them to second ones.
#![tactic(auto)]

ghost use Rattle.std.specs.Prelude.{◌≡◌};
ghost use Rattle.reply.specs.Check.{checked};
ghost use Rattle.readoff.specs.ReadingOff.{reading_off};
ghost use Rattle.values.specs.ToValues.{giving_values};
ghost use Rattle.foreign.specs.Foreign.{job_of, in_c, answer_in, buffer_in};

use job::{Job, Program, Refusal};

// A job's table without its names, as C lays it out.
#[repr(C)]
#[derive(Clone, Copy)]
pub struct Table {
    pub bound: usize,
    pub word: u8,
    pub steps: usize,
    pub variables: usize,
    pub process: [u8; Job::STEPS],
    pub kind: [u8; Job::STEPS],
    pub to: [u16; Job::STEPS],
    pub other: [u16; Job::STEPS],
    pub variable: [u8; Job::STEPS],
    pub value: [u8; Job::STEPS],
    pub lemmas: usize,
    pub lengths: [u8; Job::LEMMAS],
    pub items: [i16; Job::LEMMAS * Job::NAMES],
}

// Acceptance, with number and place 0, or the number and place of a refusal.
#[repr(C)]
#[derive(Clone, Copy)]
pub struct Answer {
    pub accepted: bool,
    pub number: u8,
    pub place: usize,
}

impl From<Table> for Program {
    ghost use Rattle.foreign.specs.Foreign.{IsProgramOf};

    ghost from_gives = { IsProgramOf };

    fn from(t: Table) -> Program {
        let Table {
            process,
            kind,
            to,
            other,
            variable,
            value,
            ..
        } = t;
        Program {
            bound: t.bound,
            word: t.word,
            steps: t.steps,
            variables: t.variables,
            process,
            kind,
            to,
            other,
            variable,
            value,
        }
    }
}

impl From<Table> for Job {
    ghost use Rattle.foreign.specs.Foreign.{IsJobOf};

    ghost from_gives = { IsJobOf };

    #[tactic(auto, unfolding(crate::specs::Foreign::job_of))]
    fn from(t: Table) -> Job {
        let names = [0; 4 * Job::STEPS];
        let Table { lengths, items, .. } = t;
        Job {
            program: Program::from(t),
            labels: names,
            names,
            lemmas: t.lemmas,
            lengths,
            items,
        }
    }
}

impl From<Result<(), Refusal>> for Answer {
    ghost use Rattle.foreign.specs.Foreign.{IsInC};

    ghost from_gives = { IsInC };

    fn from(called: Result<(), Refusal>) -> Answer {
        match called {
            Ok(()) => Answer {
                accepted: true,
                number: 0,
                place: 0,
            },
            Err(refusal) => Answer {
                accepted: false,
                number: refusal.fault.number(),
                place: refusal.place,
            },
        }
    }
}

#[unsafe(no_mangle)]
pub extern "C" fn check_reply(t: Table, reply: &[u8], work: &mut [u8]) -> Answer
    ensures { (result ≡ in_c (answer_in (checked (job_of t) reply.now work.old)))
        × (work.new ≡ buffer_in (checked (job_of t) reply.now work.old)) }
{
    reply::check(t.into(), reply, work).into()
}

#[unsafe(no_mangle)]
pub extern "C" fn read_off(t: Table, values: &[u8], run: &mut [u8]) -> Answer
    ensures { (result ≡ in_c (reading_off (job_of t) values.now run.old).answer)
        × (run.new ≡ (reading_off (job_of t) values.now run.old).buffer) }
{
    readoff::read_off(t.into(), values, run).into()
}

#[unsafe(no_mangle)]
pub extern "C" fn run_to_values(t: Table, run: &[u8], values: &mut [u8]) -> Answer
    ensures { (result ≡ in_c (giving_values (job_of t) run.now values.old).answer)
        × (values.new ≡ (giving_values (job_of t) run.now values.old).buffer) }
{
    values::run_to_values(t.into(), run, values).into()
}
