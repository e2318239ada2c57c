// Filing a job for a caller in C: the tests hold it to a second filer.
#![tactic(auto)]

ghost use Rattle.std.specs.Prelude.{◌≡◌};
ghost use Rattle.filing.specs.Filing.{filing};
ghost use Rattle.file_ffi.specs.Foreign.{in_c};

use job::Refusal;

// The answer as C lays it out: the form's length, or the number and place of a refusal; what does not apply is 0.
#[repr(C)]
#[derive(Clone, Copy)]
pub struct Answer {
    pub accepted: bool,
    pub number: u8,
    pub place: usize,
    pub length: usize,
}

impl From<Result<usize, Refusal>> for Answer {
    ghost use Rattle.file_ffi.specs.Foreign.{IsInC};

    ghost from_gives = { IsInC };

    fn from(filed: Result<usize, Refusal>) -> Answer {
        match filed {
            Ok(length) => Answer {
                accepted: true,
                number: 0,
                place: 0,
                length,
            },
            Err(refusal) => Answer {
                accepted: false,
                number: refusal.fault.number(),
                place: refusal.place,
                length: 0,
            },
        }
    }
}

#[unsafe(no_mangle)]
pub extern "C" fn file_job(text: &[u8], out: &mut [u8]) -> Answer
    ensures { (result ≡ in_c (filing text.now out.old).answer)
        × (out.new ≡ (filing text.now out.old).buffer) }
{
    filing::file(text, out).into()
}
