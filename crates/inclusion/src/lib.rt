// Each outcome of a store-buffer machine is one of the WOMM, and of the next store-buffer machine: a statement and laws, no code.
#![tactic(auto)]
