// The lines up to `lemmas`, without comments.
ghost use Rattle.scan.specs.Lines.{lines};
ghost use Rattle.form.specs.Form.{kept, ended};
ghost use Rattle.filing.specs.Lines.{HasRoomFor, PutsAll, kept_text};

use program::is_lemmas;
use put::Page;
use scan::Lines;

// The line with its LF, and nothing of a comment.
fn put_kept_line(page: &mut Page, line: &[u8])
    requires { HasRoomFor page.old (kept_text line.now) }
    ensures { PutsAll page.old page.new (kept_text line.now) }
{
    if scan::follows(line, 0, b"~") {
        return;
    }
    page.part(line);
    page.byte(b'\n');
}

// The lines before `lemmas`.
pub(crate) fn put_kept(page: &mut Page, text: &[u8])
    requires { HasRoomFor page.old (ended (kept (lines text.now))) }
    ensures { PutsAll page.old page.new (ended (kept (lines text.now))) }
{
    for line in Lines::new(text) {
        if is_lemmas(line.bytes) {
            return;
        }
        put_kept_line(&mut *page, line.bytes);
    }
}
