// The examples of document 01 that are proved: one computed test on one list.
#![tactic(auto)]
