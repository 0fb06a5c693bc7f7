// The query grammar and what a query means: definitions and theorems only, in specs/.
#![tactic(auto)]
