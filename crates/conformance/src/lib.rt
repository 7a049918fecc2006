// Theorems that join the engine's definitions with those of the public texts: they stand in specs/ and proofs/.
#![tactic(auto)]
