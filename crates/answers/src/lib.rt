// What each public call answers: definitions and theorems only, in specs/.
#![tactic(auto)]
