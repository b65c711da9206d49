// Laws of lists and placements only.

#![tactic(auto)]
