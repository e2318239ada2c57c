// The lemma lines.
ghost use Rattle.form.specs.Form.{name_of, spelt};
ghost use Rattle.filing.specs.Names.{literal, clause};
ghost use Rattle.filing.specs.Rows.{clauses};
ghost use Rattle.filing.specs.Lines.{HasRoomFor, PutsAll, gap_text, lemma_line, lemma_lines};

use super::names::Name;
use super::rows::Row;
use job::Job;
use put::Page;

// The name of an item: of the steps, then of the variables.
fn put_item(page: &mut Page, job: &Job, item: usize)
    requires { HasRoomFor page.old (name_of job.now item) }
    ensures { PutsAll page.old page.new (name_of job.now item) }
{
    let steps = job.program.steps;
    if item < steps {
        page.name(&job.labels, item);
    } else {
        page.name(&job.names, item - steps);
    }
}

fn put_name(page: &mut Page, job: &Job, name: Name)
    requires { HasRoomFor page.old (spelt job.now (literal name)) }
    ensures { PutsAll page.old page.new (spelt job.now (literal name)) }
{
    if name.negated {
        page.byte(b'~');
    }
    put_item(page, job, usize::from(name.item));
}

// One space between names.
fn put_gap(page: &mut Page, i: usize)
    requires { HasRoomFor page.old (gap_text i) }
    ensures { PutsAll page.old page.new (gap_text i) }
{
    if i != 0 {
        page.byte(b' ');
    }
}

// The line of a lemma, with its LF.
fn put_lemma(page: &mut Page, job: &Job, row: &[Name])
    requires { HasRoomFor page.old (lemma_line job.now (clause row.now)) }
    ensures { PutsAll page.old page.new (lemma_line job.now (clause row.now)) }
{
    for (i, &name) in row.iter().enumerate() {
        put_gap(&mut *page, i);
        put_name(&mut *page, job, name);
    }
    page.byte(b'\n');
}

pub(crate) fn put_lemmas(page: &mut Page, job: &Job, rows: &[Row])
    requires { HasRoomFor page.old (lemma_lines job.now (clauses rows.now)) }
    ensures { PutsAll page.old page.new (lemma_lines job.now (clauses rows.now)) }
{
    for row in rows {
        put_lemma(&mut *page, job, row);
    }
}
