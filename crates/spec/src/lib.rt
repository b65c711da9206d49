// Definitions alone: what a reader must believe stands in specs/.

#![tactic(auto)]
