// The steps of a table: each by its kind, those past the last one 0, and as many variables as they mention. Past its end a table has zeros.
ghost use Rattle.std.specs.Prelude.{◌≡◌};
ghost use Rattle.lists.specs.Rows.{num};
ghost use Rattle.job.specs.Fitness.{is_step, other_fits, variable_fits, value_fits, used_step, unused_step, mentioned, step_fits};
ghost use Rattle.job.specs.Fitness.{steps_fit};

use job::{Job, Kind, Program};
use lists::get_or;

// Step c of a table.
#[derive(Clone, Copy)]
struct Step<'a> {
    program: &'a Program,
    c: usize,
}

// Each column of the table is an array, so each value of a step has a line of its own.
impl Step<'_> {
    fn process(self) -> u8
        ensures { result ≡ num self.entry.program.now.process self.entry.c }
    {
        get_or(&self.program.process, self.c, 0)
    }

    fn kind(self) -> u8
        ensures { result ≡ num self.entry.program.now.kind self.entry.c }
    {
        get_or(&self.program.kind, self.c, 0)
    }

    fn variable(self) -> u8
        ensures { result ≡ num self.entry.program.now.variable self.entry.c }
    {
        get_or(&self.program.variable, self.c, 0)
    }

    fn value(self) -> u8
        ensures { result ≡ num self.entry.program.now.value self.entry.c }
    {
        get_or(&self.program.value, self.c, 0)
    }

    fn to(self) -> u16
        ensures { result ≡ num self.entry.program.now.to self.entry.c }
    {
        get_or(&self.program.to, self.c, 0)
    }

    fn other(self) -> u16
        ensures { result ≡ num self.entry.program.now.other self.entry.c }
    {
        get_or(&self.program.other, self.c, 0)
    }

    // Whether l is the number of a step of the same process.
    #[tactic(auto, unfolding(job::specs::Fitness::is_step, lists::specs::Tests::every, lists::specs::Tests::within))]
    fn leads_to(self, l: u16) -> bool
        ensures { result ≡ is_step self.entry.program.now self.entry.c l }
    {
        let l = usize::from(l);
        (1..=self.program.steps).contains(&l)
            && get_or(&self.program.process, l - 1, 0) == self.process()
    }

    #[tactic(auto, unfolding(job::specs::Fitness::other_fits))]
    fn other_fits(self) -> bool
        ensures { result ≡ other_fits self.entry.program.now self.entry.c }
    {
        if self.kind() == Kind::If as u8 {
            self.leads_to(self.other())
        } else {
            self.other() == 0
        }
    }

    #[tactic(auto, unfolding(job::specs::Fitness::variable_fits, lists::specs::Tests::every, lists::specs::Tests::within))]
    fn variable_fits(self, seen: u8) -> bool
        ensures { result ≡ variable_fits self.entry.program.now seen self.entry.c }
    {
        if Kind::Assign as u8 <= self.kind() {
            (1..=usize::from(seen) + 1).contains(&usize::from(self.variable()))
        } else {
            self.variable() == 0
        }
    }

    #[tactic(auto, unfolding(job::specs::Fitness::value_fits))]
    fn value_fits(self) -> bool
        ensures { result ≡ value_fits self.entry.program.now self.entry.c }
    {
        if Kind::Assign as u8 <= self.kind() {
            self.value() <= 1
        } else {
            self.value() == 0
        }
    }

    #[tactic(auto, unfolding(job::specs::Fitness::used_step, lists::specs::Tests::every, lists::specs::Tests::within))]
    fn is_used(self, seen: u8) -> bool
        ensures { result ≡ used_step self.entry.program.now seen self.entry.c }
    {
        (1..=2).contains(&self.process())
            && (1..=4).contains(&self.kind())
            && self.leads_to(self.to())
            && self.other_fits()
            && self.variable_fits(seen)
            && self.value_fits()
    }

    #[tactic(auto, unfolding(job::specs::Fitness::unused_step, lists::specs::Tests::every))]
    fn is_unused(self) -> bool
        ensures { result ≡ unused_step self.entry.program.now self.entry.c }
    {
        self.process() == 0
            && self.kind() == 0
            && self.to() == 0
            && self.other() == 0
            && self.variable() == 0
            && self.value() == 0
    }

    // seen are the variables that the steps before it mention.
    #[tactic(auto, unfolding(job::specs::Fitness::step_fits))]
    fn fits(self, seen: u8) -> bool
        requires { seen ≡ mentioned self.program.now self.c }
        ensures { result ≡ step_fits self.entry.program.now self.entry.c }
    {
        if self.c < self.program.steps {
            self.is_used(seen)
        } else {
            self.is_unused()
        }
    }
}

#[tactic(auto, unfolding(job::specs::Fitness::mentioned))]
pub(crate) fn steps_fit(program: &Program) -> bool
    ensures { result ≡ steps_fit program.now }
{
    let mut seen = 0;
    for c in 0..Job::STEPS {
        let step = Step { program, c };
        if !step.fits(seen) {
            return false;
        }
        seen = seen.max(step.variable());
    }
    program.variables == usize::from(seen)
}
