// The laws of words made from marks: which they are, how many, and the refusals before them. Stated in specs/, proved
// in proofs/. No code.
#![tactic(auto)]
