// Which steps a search may take alone, and which it may leave out: definitions and laws, no code.
#![tactic(auto)]
