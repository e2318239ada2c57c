// Reading a job for a caller in C: the tests hold it to a second reader.
#![tactic(auto)]

ghost use Rattle.std.specs.Prelude.{◌≡◌};
ghost use Rattle.parse.specs.Reading.{read_job};
ghost use Rattle.parse_ffi.specs.Foreign.{in_c};

use job::{Job, Program, Refusal};

// A reading as C lays it out: acceptance, with number and place 0, or the number and place of a refusal; and the table.
#[repr(C)]
#[derive(Clone, Copy)]
pub struct Answer {
    pub accepted: bool,
    pub number: u8,
    pub place: usize,
    pub bound: usize,
    pub word: u8,
    pub steps: usize,
    pub variables: usize,
    pub process: [u8; Job::STEPS],
    pub kind: [u8; Job::STEPS],
    pub to: [u16; Job::STEPS],
    pub other: [u16; Job::STEPS],
    pub variable: [u8; Job::STEPS],
    pub value: [u8; Job::STEPS],
    pub labels: [u8; 4 * Job::STEPS],
    pub names: [u8; 4 * Job::STEPS],
    pub lemmas: usize,
    pub lengths: [u8; Job::LEMMAS],
    pub items: [i16; Job::LEMMAS * Job::NAMES],
}

// The table of an accepted job.
impl From<Job> for Answer {
    ghost use Rattle.parse_ffi.specs.Foreign.{IsFlat};

    ghost from_gives = { IsFlat };

    fn from(table: Job) -> Answer {
        let p = table.program;
        let Program {
            process,
            kind,
            to,
            other,
            variable,
            value,
            ..
        } = p;
        let Job {
            labels,
            names,
            lengths,
            items,
            ..
        } = table;
        Answer {
            accepted: true,
            number: 0,
            place: 0,
            bound: p.bound,
            word: p.word,
            steps: p.steps,
            variables: p.variables,
            process,
            kind,
            to,
            other,
            variable,
            value,
            labels,
            names,
            lemmas: table.lemmas,
            lengths,
            items,
        }
    }
}

impl From<Result<Job, Refusal>> for Answer {
    ghost use Rattle.parse_ffi.specs.Foreign.{IsInC};

    ghost from_gives = { IsInC };

    fn from(read: Result<Job, Refusal>) -> Answer {
        match read {
            Ok(table) => Answer::from(table),
            Err(refusal) => Answer {
                accepted: false,
                number: refusal.fault.number(),
                place: refusal.place,
                ..Answer::from(parse::table_of(&read))
            },
        }
    }
}

#[unsafe(no_mangle)]
pub extern "C" fn read_job(text: &[u8]) -> Answer
    ensures { result ≡ in_c (read_job text.now) }
{
    parse::read(text).into()
}
