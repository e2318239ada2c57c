// Writing a job in its filing form (document 02, S-1).
#![tactic(auto)]

mod names; // names.rt: a name in a lemma
mod sorted; // sorted.rt: insertion into a list
mod rows; // rows.rt: the lemmas in their filing form
mod lemma_lines; // lemma_lines.rt: their lines
mod kept_lines; // kept_lines.rt: the lines up to `lemmas`

ghost use Rattle.std.specs.Prelude.{◌≡◌};
ghost use Rattle.form.specs.Form.{form};
ghost use Rattle.job.specs.Answers.{answer_of};
ghost use Rattle.filing.specs.Filing.{filing};
ghost use Rattle.filing.specs.Rows.{Sized};
ghost use Rattle.filing.specs.Lines.{HasRoomFor, PutsAll};

use job::{Fault, Job, Refusal};
use kept_lines::put_kept;
use lemma_lines::put_lemmas;
use put::Page;
use rows::{Rows, file_rows};

// The lines before `lemmas`, that line, and the lemma lines.
fn put_form(page: &mut Page, text: &[u8], job: &Job)
    requires sized { Sized job.now }
    requires room { HasRoomFor page.old (form text.now job.now) }
    ensures { PutsAll page.old page.new (form text.now job.now) }
{
    put_kept(&mut *page, text);
    page.part(b"lemmas\n");
    let mut rows = Rows::new();
    file_rows(job, &mut rows);
    put_lemmas(page, job, &rows);
}

// The filing form of a job text goes to the front of a buffer as long as the text; its length, or a refusal.
#[tactic(auto, unfolding(crate::specs::Filing::filing))]
pub fn file(text: &[u8], out: &mut [u8]) -> Result<usize, Refusal>
    ensures { (answer_of result ≡ (filing text.now out.old).answer)
        × (out.new ≡ (filing text.now out.old).buffer) }
{
    // The table is lent from where it was read.
    let read = parse::read(text);
    let job = match &read {
        Ok(job) => job,
        Err(refusal) => return Err(*refusal),
    };
    if out.len() < text.len() {
        return Err(Fault::BufferShort.into());
    }
    let mut page = Page::new(out);
    put_form(&mut page, text, job);
    Ok(page.end)
}
