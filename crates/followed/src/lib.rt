// The laws of a packet that comes in portions: the fold of one-byte steps gives what def_portions says of all bytes so
// far, and so does each call. Proved in proofs/. No code.
#![tactic(auto)]
