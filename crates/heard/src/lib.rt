// The laws of what a block of words made from marks shows: the marks' own values, and the numbers heard. Proved in
// proofs/. No code.
#![tactic(auto)]
