// Definitions and laws alone: guest memory at the event that the guest relies on, of any log of a TD.
#![tactic(auto)]
