// Definitions and laws alone: what holds of a TD, and of a control chain, by the number of its TRBs.
#![tactic(auto)]
