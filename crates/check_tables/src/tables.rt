// Three tables that fit.
ghost use Rattle.std.specs.Prelude.{◌≤◌};
ghost use Rattle.job.specs.Limits.{max_steps};

use job::Process::{A, B};
use job::{Job, Kind, Program, Word};

// A few numbers, and zeros behind them.
fn row<T: Copy + Default, const N: usize>(front: [T; N]) -> [T; Job::STEPS]
    requires { N ≤ max_steps }
{
    let mut numbers = [T::default(); Job::STEPS];
    numbers[..N].copy_from_slice(&front);
    numbers
}

// A lemma of one name, and one of two.
fn items(a: i16, b: i16, c: i16) -> [i16; Job::LEMMAS * Job::NAMES] {
    let mut zs = [0; Job::LEMMAS * Job::NAMES];
    zs[0] = a;
    zs[Job::NAMES] = b;
    zs[Job::NAMES + 1] = c;
    zs
}

fn job(
    program: Program,
    lemmas: usize,
    lengths: [u8; Job::LEMMAS],
    items: [i16; Job::LEMMAS * Job::NAMES],
) -> Job {
    Job {
        program,
        labels: [0; 4 * Job::STEPS],
        names: [0; 4 * Job::STEPS],
        lemmas,
        lengths,
        items,
    }
}

// Document 01, 'A job in full': `A0 a=1 goto A0`, `B0 maybe goto B0`; with or without the lemma `~a`.
pub(crate) fn one_bit(with_lemma: bool) -> Job {
    let program = Program {
        bound: 1,
        word: Word::Free as u8,
        steps: 2,
        variables: 1,
        process: row([A as u8, B as u8]),
        kind: row([Kind::Assign as u8, Kind::Maybe as u8]),
        to: row([1, 2]),
        other: [0; Job::STEPS],
        variable: row([1]),
        value: row([1]),
    };
    if with_lemma {
        job(program, 1, row([1]), items(-3, 0, 0))
    } else {
        job(program, 0, [0; Job::LEMMAS], items(0, 0, 0))
    }
}

// `A0 critical goto A1`, `A1 if a=1 goto A0 else A1`, `B0 maybe goto B0`, `B1 b=0 goto B0`; lemmas `~A0` and `a ~b`;
// with a word behind the bound.
pub(crate) fn four_steps(word: u8) -> Job {
    let program = Program {
        bound: 1,
        word,
        steps: 4,
        variables: 2,
        process: row([A as u8, A as u8, B as u8, B as u8]),
        kind: row([
            Kind::Critical as u8,
            Kind::If as u8,
            Kind::Maybe as u8,
            Kind::Assign as u8,
        ]),
        to: row([2, 1, 3, 3]),
        other: row([0, 2]),
        variable: row([0, 1, 0, 2]),
        value: row([0, 1]),
    };
    job(program, 2, row([1, 2]), items(-1, 5, -6))
}

// 1, 2, 3, ..
fn numbers() -> [u8; Job::STEPS] {
    let mut xs = [0; Job::STEPS];
    for c in 0..Job::STEPS {
        xs[c] = (c + 1) as u8;
    }
    xs
}

// 99 steps of A and one of B, each of which assigns a variable of its own; bound 99; 100 lemmas of 64 names.
pub(crate) fn largest() -> Job {
    let mut process = [A as u8; Job::STEPS];
    process[Job::STEPS - 1] = B as u8;
    let mut to = [1; Job::STEPS];
    to[Job::STEPS - 1] = Job::STEPS as u16;
    let program = Program {
        bound: Job::BOUND,
        word: Word::Free as u8,
        steps: Job::STEPS,
        variables: Job::STEPS,
        process,
        kind: [Kind::Assign as u8; Job::STEPS],
        to,
        other: [0; Job::STEPS],
        variable: numbers(),
        value: [1; Job::STEPS],
    };
    job(
        program,
        Job::LEMMAS,
        [Job::NAMES as u8; Job::LEMMAS],
        [1; Job::LEMMAS * Job::NAMES],
    )
}
