// The plain machine: definitions and laws alone (specs/, proofs/); no code.

#![tactic(auto)]
