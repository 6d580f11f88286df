// What the theory promises of trees, parent lists, strings, packs and images; no code.
#![tactic(auto)]
