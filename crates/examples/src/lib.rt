// The twelve examples of RULES and the worked facts of the definitions: stated in specs/, proved in proofs/.
#![tactic(auto)]
