// Happens-before and the first race: definitions and laws, no code.
#![tactic(auto)]
