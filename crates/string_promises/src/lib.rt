// What the two calls of tree strings promise; no code.
#![tactic(auto)]
