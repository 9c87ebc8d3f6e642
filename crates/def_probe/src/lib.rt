// What xrprobe answers to a request, as text (README, "xrprobe"). Definitions only: see specs/.
#![tactic(auto)]
