// Multisets and digits: definitions and laws alone (specs/, proofs/); no code.

#![tactic(auto)]
