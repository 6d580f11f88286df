// What the two calls of parenthesis text promise; no code.
#![tactic(auto)]
