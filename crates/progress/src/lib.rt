// Nobody waits without cause: definitions and laws, no code.
#![tactic(auto)]
