// 45: whether a table is that of a job (document 01, 'Calls and buffers', Reading).
#![tactic(auto)]

mod steps; // steps.rt: the steps, one by one, and the variables they mention
mod starts; // starts.rt: a process's first step; 98, 99 and 55
mod lemmas; // lemmas.rt: the lemmas, place by place

ghost use Rattle.std.specs.Prelude.{◌≡◌, true, ◌≤◌};
ghost use Rattle.job.specs.Limits.{max_lemmas};
ghost use Rattle.job.specs.Fitness.{program_fits, fit};
ghost use Rattle.job.proofs.FitnessLaws.{Sizes};

use job::{Fault, Job, Program, Refusal, Word};
use lemmas::lemmas_fit;
use starts::starts_fit;
use steps::steps_fit;

// The number of steps is tested first: the other tests look at each of them.
#[tactic(auto, unfolding(job::specs::Fitness::program_fits, lists::specs::Tests::every, lists::specs::Tests::within))]
fn program_fits(p: &Program) -> bool
    ensures { result ≡ program_fits p.now }
{
    p.steps <= Job::STEPS
        && (1..=Job::BOUND).contains(&p.bound)
        && steps_fit(p)
        && starts_fit(p)
        && p.word <= Word::Crash as u8
}

// The program is tested first: then the number of items is small.
#[tactic(auto, unfolding(job::specs::Fitness::fit, lists::specs::Tests::every))]
fn fits(job: &Job) -> bool
    ensures { result ≡ fit job.now }
{
    let p = &job.program;
    if !program_fits(p) {
        return false;
    }
    job.lemmas <= Job::LEMMAS && lemmas_fit(job, p.steps + p.variables)
}

// A table that is that of a job: what is proved of it is known of the value.
#[derive(Clone, Copy)]
pub struct FitJob {
    pub job: Job,
    ghost fits: { fit job ≡ true },
    ghost sizes: { Sizes job.program },
    ghost few_lemmas: { job.lemmas ≤ max_lemmas },
}

// 45 of any other table.
impl TryFrom<Job> for FitJob {
    ghost use Rattle.fit.specs.FitJob.{IsFitOrRefused};

    type Error = Refusal;

    ghost try_from_gives = { IsFitOrRefused };

    fn try_from(job: Job) -> Result<FitJob, Refusal> {
        if fits(&job) {
            Ok(FitJob { job })
        } else {
            Err(Fault::TableUnfit.into())
        }
    }
}
