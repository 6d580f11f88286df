// Theorems about the definitions of `meaning`; no code.
#![tactic(auto)]
