// What the project claims beyond single functions, stated in specs/ about the public calls and proved in proofs/. No
// code.
#![tactic(auto)]
