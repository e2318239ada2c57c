// One number of a clause.
ghost use Rattle.std.specs.Prelude.{◌≡◌, ◌+◌, ◌≤◌, length};
ghost use Rattle.put.specs.Put.{HasRoom, Puts};
ghost use Rattle.text.specs.Dimacs.{number_room, told};
ghost use Rattle.text.specs.Texts.{PutsWhole};

use super::has_room;
use super::numeral::digits;
use itoa::write_digits;
use put::Page;

// The minus sign, the digits, and the byte behind them.
#[tactic(auto, using(crate::proofs::ToldLaws::length_told, crate::proofs::SignLaws::back))]
pub(crate) fn told_length(x: i32) -> usize
    ensures { result ≡ length (told x) }
{
    usize::from(x < 0) + digits(x.unsigned_abs() as usize) + 1
}

// The text of x up to `end`, where it ends. Each byte goes to its place, for which the caller has seen the room.
#[inline]
fn put_told(page: &mut Page, end: usize, x: i32)
    requires place { end ≡ page.old.end + length (told x) }
    requires room { end ≤ length page.old.out.now }
    ensures { Puts (length (told x)) page.old page.new (told x) }
{
    if x < 0 {
        page.out[page.end] = b'-';
    }
    let size = x.unsigned_abs();
    write_digits(u64::from(size), page.out, end - 1);
    page.out[end - 1] = if size == 0 { b'\n' } else { b' ' };
    page.end = end;
}

// The number, where it has room; tells whether it had.
#[inline]
pub(crate) fn try_put_told(page: &mut Page, x: i32) -> bool
    ensures { PutsWhole number_room page.old page.new result (told x) }
{
    let n = told_length(x);
    let fits = has_room(page, n);
    if fits {
        put_told(page, page.end + n, x);
    }
    fits
}
