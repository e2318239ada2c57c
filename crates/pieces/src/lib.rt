// What the clause call gives when it is asked again and again: statements and their proofs, no code.
#![tactic(auto)]
