// The form of an image, a body with a tail behind it: definitions and laws alone, no code.

#![tactic(auto)]
