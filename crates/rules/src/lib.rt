// Theorems only: a sheet is accepted exactly when it keeps the rules of its paper.

#![tactic(auto)]
