// One place of a table changed.
use job::Job;

#[derive(Clone, Copy)]
pub enum Place {
    Bound,
    Steps,
    Variables,
    Process,
    Kind,
    To,
    Other,
    Variable,
    Value,
    Lemmas,
    Length,
    Item,
    // An item of -7.
    Negated,
}

// Place c of a row becomes x; past the end of the row nothing changes.
pub(crate) fn changed(mut job: Job, place: Place, c: usize, x: u8) -> Job {
    if Job::STEPS <= c {
        return job;
    }
    let program = &mut job.program;
    match place {
        Place::Bound => program.bound = usize::from(x),
        Place::Steps => program.steps = usize::from(x),
        Place::Variables => program.variables = usize::from(x),
        Place::Process => program.process[c] = x,
        Place::Kind => program.kind[c] = x,
        Place::To => program.to[c] = u16::from(x),
        Place::Other => program.other[c] = u16::from(x),
        Place::Variable => program.variable[c] = x,
        Place::Value => program.value[c] = x,
        Place::Lemmas => job.lemmas = usize::from(x),
        Place::Length => job.lengths[c] = x,
        Place::Item => job.items[c] = i16::from(x),
        Place::Negated => job.items[c] = -7,
    }
    job
}
