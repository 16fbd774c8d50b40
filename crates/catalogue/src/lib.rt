// The catalogue as a whole: the calls' contracts and the theorem about every history together; no code.

#![tactic(auto)]
