// The second program: the run that a reply gives.
ghost use Rattle.std.specs.Prelude.{◌≡◌, ◌≤◌, length};
ghost use Rattle.parse.specs.Reading.{reading};
ghost use Rattle.outputs.specs.Printing.{Holds, Shows};
ghost use Rattle.outputs.specs.Show.{shown_room, shown};

use super::line::or_refusal;
use super::printed::Printed;
use job::{Fault, Job, Refusal};

// 52: the largest N and the longest reply.
pub const MOST: usize = 32768;

// The bytes of a run.
const RUN: usize = (Job::BOUND + 1) * (Job::STEPS + 3);

// A line of a run: a time of two digits, two steps, a bit for each variable, the turn, LF; a name has four bytes at most.
const LINE: usize = 2 + 2 * 5 + Job::STEPS * 7 + 2 + 1;

// The lines of a run.
pub const LINES: usize = (Job::BOUND + 1) * LINE;

// Not inlined: what reading takes of the stack is free again while the reply is checked.
#[inline(never)]
fn read(job: &[u8]) -> Result<Job, Refusal>
    ensures reading { result ≡ reading job.now }
{
    parse::read(job)
}

// The lines of the run. 52 comes before the checker, whose 51 would hide it.
fn put_run(out: &mut [u8], job: &[u8], reply: &[u8]) -> Result<usize, Refusal>
    requires { shown_room ≤ length out.old }
    ensures { Shows (shown job.now reply.now) result out.old out.new }
{
    let job = read(job)?;
    let header = totals::totals(job)?;
    if MOST < header.variables || MOST < reply.len() {
        return Err(Fault::TooLarge.at(0));
    }
    let mut values = [0u8; MOST];
    reply::check(job, reply, &mut values)?;
    let mut run = [0u8; RUN];
    readoff::read_off(job, &values, &mut run)?;
    let lines = text::run_text(job, &run, out);
    Ok(lines.bytes)
}

// What is printed of a job text and a reply. It shares three lines with `file`: a function that is handed the maker has more.
pub fn show(job: &[u8], reply: &[u8]) -> Printed<LINES>
    ensures { Holds shown_room (shown job.now reply.now) result.array result.length }
{
    let mut printed = Printed {
        array: [0u8; LINES],
        length: 0,
    };
    let run = put_run(&mut printed.array, job, reply);
    printed.length = or_refusal(&mut printed.array, run);
    printed
}
