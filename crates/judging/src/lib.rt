// The first bad line of a text, found line by line: laws, no code.
#![tactic(auto)]
