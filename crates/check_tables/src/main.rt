// Fitness and totals of tables made by hand: one line a table, to be compared with document 01.
#![tactic(auto)]

mod tables; // tables.rt: the tables that fit
mod faults; // faults.rt: a table with one place changed

use faults::{Place, changed};
use job::{Job, Word};
use std::io;
use std::io::Print;
use tables::{four_steps, largest, one_bit};

// The answer for one table, after its name.
fn show<P: Print>(out: &P, name: &str, job: Job) -> io::Result<()> {
    match totals::totals(job) {
        Ok(header) => println!(out;
            "{name}: {} variables, {} clauses",
            header.variables, header.clauses
        ),
        Err(refusal) => println!(out; "{name}: {refusal}"),
    }
}

// The table of four steps with one place changed.
fn fault<P: Print>(out: &P, name: &str, place: Place, c: usize, x: u8) -> io::Result<()> {
    show(
        out,
        name,
        changed(four_steps(Word::Free as u8), place, c, x),
    )
}

fn each_fault<P: Print>(out: &P, rows: &[(&str, Place, usize, u8)]) -> io::Result<()> {
    for &(name, place, c, x) in rows {
        fault(out, name, place, c, x)?;
    }
    Ok(())
}

fn sizes<P: Print>(out: &P) -> io::Result<()> {
    each_fault(
        out,
        &[
            ("bound 0", Place::Bound, 0, 0),
            ("bound 100", Place::Bound, 0, 100),
            ("0 steps", Place::Steps, 0, 0),
            ("a step past the last", Place::Steps, 0, 3),
            ("a step of zeros", Place::Steps, 0, 5),
            ("101 steps", Place::Steps, 0, 101),
            ("a variable too few", Place::Variables, 0, 1),
            ("a variable too many", Place::Variables, 0, 3),
            ("a lemma past the last", Place::Lemmas, 0, 1),
            ("a lemma of no names", Place::Lemmas, 0, 3),
            ("101 lemmas", Place::Lemmas, 0, 101),
        ],
    )
}

fn steps<P: Print>(out: &P) -> io::Result<()> {
    each_fault(
        out,
        &[
            ("process 0", Place::Process, 0, 0),
            ("process 3", Place::Process, 0, 3),
            ("kind 0", Place::Kind, 2, 0),
            ("kind 5", Place::Kind, 2, 5),
        ],
    )?;
    show(
        out,
        "both first steps critical",
        changed(four_steps(Word::Start as u8), Place::Kind, 2, 2),
    )?;
    each_fault(
        out,
        &[
            ("L 0", Place::To, 0, 0),
            ("L past the steps", Place::To, 0, 5),
            ("L of the other process", Place::To, 0, 3),
            ("M 0 in an if", Place::Other, 1, 0),
            ("M past the steps", Place::Other, 1, 5),
            ("M of the other process", Place::Other, 1, 4),
            ("M in an assignment", Place::Other, 3, 3),
            ("V 0 in an if", Place::Variable, 1, 0),
            ("V 2 before V 1", Place::Variable, 1, 2),
            ("V that skips a number", Place::Variable, 3, 3),
            ("V in a maybe", Place::Variable, 2, 1),
            ("v 2", Place::Value, 1, 2),
            ("v in a critical", Place::Value, 0, 1),
        ],
    )
}

fn unused<P: Print>(out: &P) -> io::Result<()> {
    each_fault(
        out,
        &[
            ("unused process", Place::Process, 4, 1),
            ("unused kind", Place::Kind, 4, 1),
            ("unused L", Place::To, 99, 1),
            ("unused M", Place::Other, 4, 1),
            ("unused V", Place::Variable, 4, 1),
            ("unused v", Place::Value, 99, 1),
            ("unused length", Place::Length, 2, 1),
            ("unused item", Place::Item, 1, 1),
        ],
    )
}

fn lemmas<P: Print>(out: &P) -> io::Result<()> {
    each_fault(
        out,
        &[
            ("lemma of 0 names", Place::Length, 0, 0),
            ("lemma of 65 names", Place::Length, 0, 65),
            ("name 0", Place::Length, 0, 2),
            ("name past the length", Place::Length, 1, 1),
            ("item past the items", Place::Item, 0, 7),
            ("negated item past the items", Place::Negated, 0, 7),
        ],
    )
}

// 55 is asked of a table with a word alone; the third word is none.
fn words<P: Print>(out: &P) -> io::Result<()> {
    show(
        out,
        "four steps from the start",
        four_steps(Word::Start as u8),
    )?;
    show(out, "four steps to a crash", four_steps(Word::Crash as u8))?;
    fault(out, "both critical, no word", Place::Kind, 2, 2)?;
    show(out, "a third word", four_steps(3))
}

fn all<P: Print>(out: &P) -> io::Result<()> {
    show(out, "a job in full", one_bit(false))?;
    show(out, "with lemma ~a", one_bit(true))?;
    show(out, "four steps", four_steps(Word::Free as u8))?;
    show(out, "the largest job", largest())?;
    show(
        out,
        "no step of A",
        changed(one_bit(false), Place::Process, 0, 2),
    )?;
    show(
        out,
        "no step of B",
        changed(one_bit(false), Place::Process, 1, 1),
    )?;
    sizes(out)?;
    steps(out)?;
    unused(out)?;
    lemmas(out)?;
    words(out)
}

// The first write that fails ends it.
fn main(rt: HostRuntime) {
    let _ = all(&rt);
}
