// Definitions and laws alone: no torn frame, of a block that only calls made.
#![tactic(auto)]
