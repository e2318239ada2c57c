// The run's bytes, group by group: A's step number, B's, each bit, the turn.
ghost use Rattle.std.specs.Prelude.{◌≡◌, true, suc, ◌≤◌, ◌<◌, length, IfSome};
ghost use Rattle.job.specs.Limits.{max_steps};
ghost use Rattle.lists.specs.Tests.{all};
ghost use Rattle.lists.specs.Writing.{write};
ghost use Rattle.job.specs.ReadOff.{reads_at, run_read, turn_byte, group, group_length, run_bytes};
ghost use Rattle.readoff.specs.ReadingOff.{run_length};
ghost use Rattle.readoff.specs.Standing.{number};

use super::Values;
use super::rows::put_bits;
use super::standing::last_step;
use job::Process;
use lists::get_or;
use states::times;

// A step's number in a run, 0 of none.
fn number(step: Option<usize>) -> u8
    requires { IfSome step (λ c. c < max_steps) }
    ensures { result ≡ number step }
{
    match step {
        Some(c) => (c + 1) as u8,
        None => 0,
    }
}

impl Values<'_> {
    // Whose turn it is at time t, by the process's number; 0 last.
    #[tactic(auto, unfolding(job::specs::ReadOff::turn_byte, job::specs::Numbering::turn), using(crate::proofs::ReadingLaws::turn_read))]
    fn turn_byte(&self, t: usize) -> u8
        ensures { result ≡ turn_byte self.now.fit.now.job.program (run_read self.now.fit.now.job.program self.now.bytes.now) t }
    {
        if self.fit.job.program.bound <= t {
            0
        } else if self.bytes[self.turns() + t] == 1 {
            Process::A as u8
        } else {
            Process::B as u8
        }
    }

    fn put_group(&self, t: usize, part: &mut [u8])
        requires time { t ≤ self.now.fit.now.job.program.bound }
        requires reads { reads_at self.now.fit.now.job.program self.now.bytes.now t ≡ true }
        requires room { length part.old ≡ group_length self.now.fit.now.job.program }
        ensures { part.new ≡ group self.now.fit.now.job.program (run_read self.now.fit.now.job.program self.now.bytes.now) t }
    {
        let p = &self.fit.job.program;
        let items = self.items(t);
        part[0] = number(last_step(p, items, true, p.steps));
        part[1] = number(last_step(p, items, false, p.steps));
        let (_, bits) = items.split_at(p.steps);
        put_bits(&mut part[2..2 + p.variables], |x| get_or(bits, x, 0) == 1);
        part[2 + p.variables] = self.turn_byte(t);
    }

    pub(crate) fn write_run(&self, run: &mut [u8])
        requires reads { all (suc self.now.fit.now.job.program.bound) (reads_at self.now.fit.now.job.program self.now.bytes.now) ≡ true }
        requires room { run_length self.now.fit.now.job.program ≤ length run.old }
        ensures { run.new ≡ write run.old 0
            (run_bytes self.now.fit.now.job.program (run_read self.now.fit.now.job.program self.now.bytes.now)) }
    {
        let length = self.fit.job.program.variables + 3;
        for t in 0..times(self.fit) {
            let at = t * length;
            self.put_group(t, &mut run[at..at + length]);
        }
    }
}
