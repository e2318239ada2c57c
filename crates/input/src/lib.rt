// What the programs read: a stream from where it stands, into a lent buffer, until the buffer is full, the stream ends or a read fails.
#![tactic(auto)]

ghost use Rattle.std.specs.Prelude.{◌≤◌, ◌<◌, length, take, OnOk};
ghost use Rattle.std.specs.Io.KnownBytes.{Consumes, IsAtEnd};

use std::io;
use std::io::Read;

// How many bytes of the stream stand at the buffer's start, also where a read failed behind them, and whether one did.
#[derive(Drop)]
pub struct Filled {
    pub count: usize,
    pub stopped: io::Result<()>,
}

// The next bytes, none left out. With no failure the buffer is full, or the stream has no more.
pub fn read_full<R: Read>(from: &mut R, space: &mut [u8]) -> Filled
    ensures within { result.count ≤ length space.new }
    ensures bytes { Consumes (R.remaining from.old) (R.remaining from.new) (take result.count space.new) }
    ensures end { OnOk result.stopped (result.count < length space.new → IsAtEnd (R.remaining from.new)) }
{
    let mut count = 0;
    // A read says itself how far it came.
    while count < space.len() {
        match from.read(&mut space[count..]) {
            Ok(0) => break,
            Ok(n) => count += n,
            Err(e) => {
                return Filled {
                    count,
                    stopped: Err(e),
                };
            }
        }
    }
    Filled {
        count,
        stopped: Ok(()),
    }
}
