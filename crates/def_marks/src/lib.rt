// Chunk words from heard marks, and reports made of them. Definitions only: see specs/.
#![tactic(auto)]
