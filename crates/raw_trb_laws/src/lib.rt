// Decoding and encoding raw TRBs undo each other: theorems over the definitions of `raw_trb`. There is no code here.
#![tactic(auto)]
