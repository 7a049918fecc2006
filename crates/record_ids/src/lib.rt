// Definitions and laws alone: every record of every call has its endpoint's ids.
#![tactic(auto)]
