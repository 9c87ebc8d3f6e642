// The questions that a reader answers, in both readings. Definitions only: see specs/.
#![tactic(auto)]
