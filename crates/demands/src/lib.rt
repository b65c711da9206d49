// Theorems only: the three demands, of the definitions.

#![tactic(auto)]
