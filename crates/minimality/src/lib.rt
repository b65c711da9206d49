// Theorems only: why a bound is a bound and a smallest role set is smallest.

#![tactic(auto)]
