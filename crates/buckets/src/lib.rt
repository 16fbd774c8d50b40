// No code: definitions and laws of words and buckets.

#![tactic(auto)]
