// A run without a race is a run of the machine without buffers: a statement and laws, no code.
#![tactic(auto)]
