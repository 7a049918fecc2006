// Definitions and laws alone: the public texts and the calls on a control endpoint, from submission to completion.
#![tactic(auto)]
