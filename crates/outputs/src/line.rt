// The line of a refusal.
ghost use Rattle.std.specs.Prelude.{◌≡◌, ◌≤◌, length};
ghost use Rattle.lists.specs.Writing.{write};
ghost use Rattle.text.specs.Lines.{line_room, refused};
ghost use Rattle.outputs.specs.Printing.{Prints};

use job::Refusal;

pub(crate) fn put_refusal(out: &mut [u8], refusal: Refusal) -> usize
    requires { line_room ≤ length out.old }
    ensures { (result ≡ length (refused refusal)) × (out.new ≡ write out.old 0 (refused refusal)) }
{
    text::refusal_text(refusal, out).unwrap()
}

// How long the text in a buffer is: what was made there, or the refusal's line, for which the buffer is as it was.
pub(crate) fn or_refusal(out: &mut [u8], made: Result<usize, Refusal>) -> usize
    requires { line_room ≤ length out.old }
    ensures { Prints made out.old result out.new }
{
    match made {
        Ok(length) => length,
        Err(refusal) => put_refusal(out, refusal),
    }
}
