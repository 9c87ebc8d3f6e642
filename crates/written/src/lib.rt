// The laws of written packets: a job list's packet shows what the list asks. Stated in specs/, proved in proofs/. No
// code.
#![tactic(auto)]
