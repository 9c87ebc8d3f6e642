// What the programs print: the lines, and the dump of a packet. Definitions only: see specs/.
#![tactic(auto)]
