// The filing form of a job (document 02, S-1) and what is shown of it: definitions and theorems, no code.
#![tactic(auto)]
