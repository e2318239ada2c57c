// A job on standard input; its filing form on standard output (document 02, S-1), or the refusal alone.
#![tactic(auto)]

use input::read_full;
use job::Job;
use outputs::file::file;
use std::io::Print;

fn main(rt: HostRuntime) {
    // One byte more than a job may have, so that a longer one is seen.
    let mut space = [0u8; Job::TEXT + 1];
    // A read that fails ends the job.
    let n = read_full(&mut rt.stdin(), &mut space).count;
    let _ = rt.write_all(file(&space[..n]).bytes());
}
