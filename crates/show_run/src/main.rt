// The second program of document 01: the job of job.txt and a solver's reply in claim.txt (unopened: empty); the run that the reply
// gives, or the refusal alone, on standard output.
#![tactic(auto)]

ghost use Rattle.std.specs.Prelude.{◌≤◌, length};

use input::read_full;
use job::Job;
use outputs::show::{MOST, show};
use std::fs;
use std::io::Print;
use std::rt::Files;

// The file's bytes at the start of the buffer, and how many; none where it cannot be opened. A read that fails ends the file.
fn read_file<R: Files>(rt: &R, name: &str, space: &mut [u8]) -> usize
    ensures { result ≤ length space.new }
{
    match fs::open(rt, name) {
        Ok(mut file) => read_full(&mut file, space).count,
        Err(_) => 0,
    }
}

fn main(rt: HostRuntime) {
    // One byte more than each may have, so that a longer one is seen.
    let mut job = [0u8; Job::TEXT + 1];
    let n = read_file(&rt, "job.txt", &mut job);
    let mut claim = [0u8; MOST + 1];
    let k = read_file(&rt, "claim.txt", &mut claim);
    let _ = rt.write_all(show(&job[..n], &claim[..k]).bytes());
}
