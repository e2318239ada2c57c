// The comments of a job text's lines.
ghost use Rattle.std.specs.Prelude.{◌≡◌, ◌+◌, ◌≤◌, leb, length, drop};
ghost use Rattle.put.specs.Put.{HasRoom, Puts};
ghost use Rattle.text.specs.Comments.{remark, remarks};
ghost use Rattle.scan.specs.Lines.{lines};
ghost use Rattle.scan.specs.Iterating.{lines_left};

use put::Page;
use scan::Lines;

#[tactic(auto, using(crate::proofs::CommentLaws::remark_counted))]
fn remark_length(line: &[u8]) -> usize
    ensures { result ≡ length (remark line.now) }
{
    if program::is_comment(line) {
        line.len() + 3
    } else {
        0
    }
}

fn put_remark(page: &mut Page, line: &[u8])
    requires { HasRoom page.old (length (remark line.now)) }
    ensures { Puts (length (remark line.now)) page.old page.new (remark line.now) }
{
    if program::is_comment(line) {
        page.part(b"c ");
        page.part(line);
        page.byte(b'\n');
    }
}

// The lines after line 1.
pub(crate) fn lines_behind_first(text: &[u8]) -> Lines<'_>
    ensures { lines_left result ≡ drop 1 (lines text.now) }
{
    let mut lines = Lines::new(text);
    let _ = lines.next();
    lines
}

// The comments of these lines take no more than this room.
pub(crate) fn remarks_fit(lines: Lines<'_>, room: usize) -> bool
    ensures { result ≡ leb (length (remarks (lines_left lines.entry))) room }
{
    let mut left = room;
    for line in lines {
        if program::is_lemmas(line.bytes) {
            return true;
        }
        let n = remark_length(line.bytes);
        if left < n {
            return false;
        }
        left -= n;
    }
    true
}

pub(crate) fn put_remarks(page: &mut Page, lines: Lines<'_>)
    requires { HasRoom page.old (length (remarks (lines_left lines))) }
    ensures { Puts (length (remarks (lines_left lines.entry))) page.old page.new (remarks (lines_left lines.entry)) }
{
    for line in lines {
        if program::is_lemmas(line.bytes) {
            return;
        }
        put_remark(page, line.bytes);
    }
}
