// What sealing, the check, reading back, questions and listings promise of images; no code.
#![tactic(auto)]
