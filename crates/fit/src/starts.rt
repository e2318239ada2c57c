// Where the processes start: a step of each (99 and 98), and with a word not both first steps critical (55).
ghost use Rattle.std.specs.Prelude.{◌≡◌, ◌&&◌, not};
ghost use Rattle.job.specs.Fitness.{both_start, both_critical};

use job::{Process, Program};

#[tactic(auto, unfolding(job::specs::Fitness::both_start, lists::specs::Tests::every))]
pub(crate) fn starts_fit(p: &Program) -> bool
    ensures { result ≡ (both_start p.now && not (both_critical p.now)) }
{
    p.first_of(Process::A as u8).is_some()
        && p.first_of(Process::B as u8).is_some()
        && !p.both_critical()
}
