// Definitions and laws alone: what holds of a block that only calls made.
#![tactic(auto)]
