// What each of the thirteen public calls does, and the table of cases with its one proof; no code.
#![tactic(auto)]
