// A name of a lemma as a field: it goes from the cursor to the next space or the line's end, and the cursor moves on to there.
// The reader that is handed the cursor comes first, then the one that is lent it.
#![tactic(auto)]

ghost use Rattle.std.specs.Prelude.{◌≡◌};
ghost use Rattle.items.specs.Items.{AreNamesOf, known_in, item_field};

use fields::Cursor;
use job::Job;

// The names that a lemma may say: those of the first steps and variables of these lists, four bytes each.
#[derive(Clone, Copy)]
pub struct Names<'a> {
    pub labels: &'a [u8],
    pub names: &'a [u8],
    pub steps: usize,
    pub variables: usize,
}

impl<'a> From<&'a Job> for Names<'a> {
    ghost from_gives = { λ job names. AreNamesOf job.now names };

    fn from(job: &'a Job) -> Names<'a> {
        Names {
            labels: &job.labels,
            names: &job.names,
            steps: job.program.steps,
            variables: job.program.variables,
        }
    }
}

// What a name of a lemma names: an item, counted from 1, or nothing of this job; and the cursor behind the name.
#[derive(Clone, Copy, PartialEq, Eq, Debug)]
pub struct Name {
    pub named: Option<usize>,
    pub at: Cursor,
}

// The name, looked up among the labels of the steps and then among the names of the variables.
#[tactic(auto, unfolding(crate::specs::Items::named_in, lists::specs::Tests::within, lists::specs::Tests::every))]
fn item_of(names: &Names, name: &[u8]) -> Option<usize>
    ensures { result ≡ known_in names.now.labels.now names.now.names.now names.now.steps names.now.variables name.now }
{
    if Job::STEPS < names.steps || Job::STEPS < names.variables {
        return None;
    }
    if !(1..=4).contains(&name.len()) {
        return None;
    }
    if let Some(c) = scan::find(names.labels, names.steps, name) {
        return Some(c + 1);
    }
    let x = scan::find(names.names, names.variables, name)?;
    Some(names.steps + x + 1)
}

#[tactic(auto, unfolding(crate::specs::Items::item_field), using(scan::proofs::WordLaws::word_length))]
pub fn item(names: &Names, s: &[u8], at: Cursor) -> Name
    ensures { result ≡ item_field names.now.labels.now names.now.names.now names.now.steps names.now.variables s.now at }
{
    let name = scan::word(s, at.column, b' ');
    Name {
        named: item_of(names, name),
        at: Cursor {
            column: at.column + name.len(),
            ..at
        },
    }
}

pub fn read_item(names: &Names, s: &[u8], at: &mut Cursor) -> Option<usize>
    ensures item { result ≡ (item_field names.now.labels.now names.now.names.now names.now.steps names.now.variables s.now at.old).named }
    ensures cursor { at.new ≡ (item_field names.now.labels.now names.now.names.now names.now.steps names.now.variables s.now at.old).at }
{
    let name = item(names, s, *at);
    *at = name.at;
    name.named
}
