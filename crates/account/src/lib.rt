// Definitions and laws alone: demand 3, the guest's account of an IN TD.
#![tactic(auto)]
