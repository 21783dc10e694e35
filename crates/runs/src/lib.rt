// What a model of a machine can do, whatever the machine: definitions and laws, no code.
#![tactic(auto)]
