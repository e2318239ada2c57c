// The first program of document 01: a job on standard input; its comments, header and clauses in DIMACS form on standard output, or the
// refusal alone. The first write that fails ends it, so that what is out is a beginning of the whole.
#![tactic(auto)]

ghost use Rattle.std.specs.Prelude.{◌≡◌, true, ◌*◌, ◌<◌, ◌≤◌, length};
ghost use Rattle.job.specs.Clauses.{clauses};
ghost use Rattle.job.specs.Fitness.{fit};
ghost use Rattle.cnf.specs.Piece.{least_room};
ghost use Rattle.text.specs.Dimacs.{number_room};

use input::read_full;
use job::Job;
use outputs::dimacs::{Following, Piece, next_piece, opening};
use std::io;
use std::io::Print;

// Piece by piece while clauses are left. A piece says itself how many it has, and never none, so that the loop ends at the last one alone.
fn print_pieces<P: Print>(out: &P, j: Job, count: usize, text: &mut [u8]) -> io::Result<()>
    requires { (fit j ≡ true) × (count ≡ length (clauses j)) × (least_room * number_room ≤ length text.old) }
{
    let mut left = count;
    while 0 < left {
        let p = next_piece(j, count - left + 1, &mut *text);
        out.write_all(&text[..p.length])?;
        left -= p.clauses;
    }
    Ok(())
}

// The clauses that follow. It is not inlined, so that only a job that has clauses pays for the room of a piece.
#[inline(never)]
fn print_clauses<P: Print>(out: &P, following: &Following) -> io::Result<()>
    requires { following.now.clauses ≡ length (clauses following.now.fit.job) }
{
    let mut text = [0u8; Piece::TEXT];
    print_pieces(out, following.fit.job, following.clauses, &mut text)
}

fn print_all<P: Print>(out: &P, text: &[u8]) -> io::Result<()> {
    let opened = opening(text);
    out.write_all(opened.text.bytes())?;
    match &opened.following {
        Some(following) => print_clauses(out, following),
        None => Ok(()),
    }
}

fn main(rt: HostRuntime) {
    // One byte more than a job may have, so that a longer one is seen.
    let mut space = [0u8; Job::TEXT + 1];
    // A read that fails ends the job.
    let n = read_full(&mut rt.stdin(), &mut space).count;
    let _ = print_all(&rt, &space[..n]);
}
