// Where a tree that starts at a bit ends or is refused, bit by bit, and what its end says; no code.
#![tactic(auto)]
