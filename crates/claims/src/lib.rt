// What is claimed of every accepted text, on one page (specs/Claims), and the proofs: no code.
#![tactic(auto)]
