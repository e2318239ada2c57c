// Sorting without repeats by a strict order, and the order of lists from the left: definitions and laws, no code.
#![tactic(auto)]
