// Theorems only: the checker accepts exactly the books that are right.

#![tactic(auto)]
