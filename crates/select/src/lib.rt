// What a query picks out: definitions and theorems only, in specs/.
#![tactic(auto)]
