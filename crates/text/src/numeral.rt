// Numbers in decimal.
ghost use Rattle.std.specs.Prelude.{◌≡◌, ◌+◌, ◌≤◌, length};
ghost use Rattle.put.specs.Put.{HasRoom, Puts};
ghost use Rattle.lists.specs.Numerals.{numeral};

use itoa::write_digits;
use put::Page;

// How many digits x has.
#[tactic(auto, using(crate::proofs::DigitLaws::length_tens, lists::proofs::NumeralLaws::length_small))]
pub(crate) fn digits(x: usize) -> usize
    ensures value { result ≡ length (numeral x) }
    ensures short { result ≤ 20 }
{
    match x.checked_ilog10() {
        Some(tens) => tens as usize + 1,
        None => 1,
    }
}

// Most numbers have one digit, which needs no counting.
#[inline(always)]
#[tactic(auto, using(crate::proofs::DigitLaws::decimal_numeral))]
pub(crate) fn put_number(page: &mut Page, x: usize)
    requires { HasRoom page.old (length (numeral x)) }
    ensures { Puts 20 page.old page.new (numeral x) }
{
    if x < 10 {
        page.out[page.end] = b'0' + x as u8;
        page.end += 1;
        return;
    }
    let end = page.end + digits(x);
    write_digits(x as u64, page.out, end);
    page.end = end;
}
