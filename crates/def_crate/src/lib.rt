// The crate reading. Definitions only: see specs/.
#![tactic(auto)]
