// Reading off: what values name, as the bytes of a run (document 01, 'Calls and buffers').
#![tactic(auto)]

mod bytes; // bytes.rt: the run's bytes, group by group
mod fault; // fault.rt: 67 and its place
mod rows; // rows.rt: a row of bits as bytes
mod standing; // standing.rt: where a process stands at a time

ghost use Rattle.std.specs.Prelude.{◌≡◌, suc, ◌+◌, ◌*◌, ◌≤◌, ◌<◌, length, IfSome, IsNone};
ghost use Rattle.job.specs.Answers.{answer_of};
ghost use Rattle.job.specs.Table.{w};
ghost use Rattle.job.specs.Numbering.{total};
ghost use Rattle.readoff.specs.ReadingOff.{run_length, reading_fit, reading_off};
ghost use Rattle.readoff.specs.Standing.{items_in};

use fit::FitJob;
use job::{Fault, Job, Refusal};
pub use rows::put_bits;
use states::times;

// Values of a job's variables, and maybe more behind them.
#[derive(Clone, Copy)]
struct Values<'a> {
    fit: &'a FitJob,
    bytes: &'a [u8],
    ghost enough: { total fit.now.job.program ≤ length bytes.now },
}

impl<'a> Values<'a> {
    fn of(fit: &'a FitJob, bytes: &'a [u8]) -> Option<Values<'a>>
        ensures some { IfSome result (λ v. (v.fit.now ≡ fit.now) × (v.bytes.now ≡ bytes.now)) }
        ensures none { IsNone result → length bytes.now < total fit.now.job.program }
    {
        if totals::header_of(fit).variables <= bytes.len() {
            Some(Values { fit, bytes })
        } else {
            None
        }
    }

    // Items at one time.
    fn width(&self) -> usize
        ensures width { result ≡ w self.now.fit.now.job.program }
        ensures most { result ≤ 200 }
    {
        let p = &self.fit.job.program;
        p.steps + p.variables
    }

    // The items of time t.
    fn items(&self, t: usize) -> &'a [u8]
        requires { t ≤ self.now.fit.now.job.program.bound }
        ensures { result.now ≡ items_in self.now.fit.now.job.program self.now.bytes.now t }
    {
        let at = t * self.width();
        &self.bytes[at..at + self.width()]
    }

    // Where the turns begin.
    fn turns(&self) -> usize
        ensures place { result ≡ suc self.now.fit.now.job.program.bound * w self.now.fit.now.job.program }
        ensures within { result + self.now.fit.now.job.program.bound ≤ total self.now.fit.now.job.program }
    {
        times(self.fit) * self.width()
    }
}

// How many bytes a run takes.
pub fn run_length(fit: &FitJob) -> usize
    ensures { result ≡ run_length fit.now.job.program }
{
    times(fit) * (fit.job.program.variables + 3)
}

// Of a fit table.
fn read_fit(fit: &FitJob, values: &[u8], run: &mut [u8]) -> Result<(), Refusal>
    ensures { (answer_of result ≡ (reading_fit fit.now.job.program values.now run.old).answer)
        × (run.new ≡ (reading_fit fit.now.job.program values.now run.old).buffer) }
{
    let Some(values) = Values::of(fit, values) else {
        return Err(Fault::BufferShort.into());
    };
    if run.len() < run_length(fit) {
        return Err(Fault::BufferShort.into());
    }
    if let Some(place) = values.fault() {
        return Err(Fault::NoReading.at(place));
    }
    values.write_run(run);
    Ok(())
}

// Not inlined: what it takes of the stack is free again while its caller goes on.
#[tactic(auto, unfolding(crate::specs::ReadingOff::reading_off))]
#[inline(never)]
pub fn read_off(j: Job, values: &[u8], run: &mut [u8]) -> Result<(), Refusal>
    ensures { (answer_of result ≡ (reading_off j values.now run.old).answer)
        × (run.new ≡ (reading_off j values.now run.old).buffer) }
{
    let fit = FitJob::try_from(j)?;
    read_fit(&fit, values, run)
}
