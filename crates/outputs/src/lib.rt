// What each program prints, as a function of what it read.
#![tactic(auto)]

pub mod printed; // printed.rt: a text in an array
mod line; // line.rt: the line of a refusal
pub mod dimacs; // dimacs.rt: the first program
pub mod show; // show.rt: the second program
pub mod file; // file.rt: the third program
