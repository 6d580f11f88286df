// Laws of trees as brackets and as parenthesis text; no code.
#![tactic(auto)]
