// Definitions from xHCI 1.2 and USB 2.0 alone: they stand in specs/.
#![tactic(auto)]
