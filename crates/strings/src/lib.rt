// Where a record's strings are, and that word two says so: definitions and theorems only, in specs/.
#![tactic(auto)]
