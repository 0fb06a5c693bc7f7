// Normalized paths, and what the call that writes one answers: definitions and theorems only, in specs/.
#![tactic(auto)]
