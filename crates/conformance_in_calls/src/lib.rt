// Definitions and laws alone: the public texts and the calls on an IN endpoint, from submission to completion.
#![tactic(auto)]
