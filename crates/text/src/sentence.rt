// A line of two numbers.
ghost use Rattle.std.specs.Prelude.{◌+◌, ◌≤◌, length};
ghost use Rattle.put.specs.Put.{HasRoom, Puts};
ghost use Rattle.text.specs.Lines.{sentence, line_room};

use super::numeral::put_number;
use put::Page;

// Two numbers, each behind its word.
pub(crate) fn put_sentence(page: &mut Page, first: &[u8], x: usize, second: &[u8], y: usize)
    requires words { (length first.now ≤ 8) × (length second.now ≤ 8) }
    requires room { HasRoom page.old line_room }
    ensures { Puts line_room page.old page.new (sentence first.now x second.now y) }
{
    page.part(first);
    put_number(page, x);
    page.part(second);
    put_number(page, y);
    page.byte(b'\n');
}
