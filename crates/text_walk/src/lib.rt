// The walk through a tree by one cursor a level, which reading and writing a text share; no code.
#![tactic(auto)]
