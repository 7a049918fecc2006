// Laws alone: how a loop over the places of a block, a TRB at a time, keeps to what is found of the TRBs held, on either endpoint.
#![tactic(auto)]
