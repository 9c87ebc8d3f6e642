// What an old reader sees of a carefully written packet: 15 is a question about one record and the number of bytes
// behind it. Proved in proofs/. No code.
#![tactic(auto)]
