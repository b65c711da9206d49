// Theorems only: a newcomer in an existing book: what the new book says is right for the longer sheet, and no other
// book is owed.

#![tactic(auto)]
