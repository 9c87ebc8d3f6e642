// Laws that the proofs of the other crates share. No code.
#![tactic(auto)]
