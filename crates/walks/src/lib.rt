// Definitions and laws alone: what a walk over a list makes of a state and a log, and a test of every element of a list.
#![tactic(auto)]
