// The third program: a job in its filing form.
ghost use Rattle.std.specs.Prelude.{◌≡◌};
ghost use Rattle.job.specs.Limits.{max_text};
ghost use Rattle.outputs.specs.Printing.{Holds};
ghost use Rattle.outputs.specs.File.{filed};

use super::line::or_refusal;
use super::printed::Printed;
use job::Job;

// What is printed of a job text. A form is never longer than its job.
pub fn file(text: &[u8]) -> Printed<{ Job::TEXT }>
    ensures { Holds max_text (filed text.now) result.array result.length }
{
    let mut printed = Printed {
        array: [0u8; Job::TEXT],
        length: 0,
    };
    let form = filing::file(text, &mut printed.array);
    printed.length = or_refusal(&mut printed.array, form);
    printed
}
