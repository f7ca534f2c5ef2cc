// Theorems about the rules, in specs/. No code.

#![tactic(auto)]
