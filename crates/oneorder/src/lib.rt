// One order over all items in place of one for each location: definitions and laws, no code.
#![tactic(auto)]
