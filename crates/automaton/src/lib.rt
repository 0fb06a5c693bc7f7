// The states of a walk and what it tallies: definitions and theorems only, in specs/.
#![tactic(auto)]
