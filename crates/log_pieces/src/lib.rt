// A stored log printed in pieces: theorems alone.
#![tactic(auto)]
