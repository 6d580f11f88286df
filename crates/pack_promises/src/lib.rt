// What splitting and joining promise of packs, strings of trees end to end; no code.
#![tactic(auto)]
