// Definitions and laws alone: logs show no byte of guest memory or of the device's data.
#![tactic(auto)]
