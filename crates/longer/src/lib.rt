// Theorems only: an accepted sheet with one line added is the sheet with one user more.

#![tactic(auto)]
