// Text: how it goes through a lent buffer, and numbers as text. Definitions only: see specs/.
#![tactic(auto)]
