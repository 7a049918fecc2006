// What compacting a log keeps of it: theorems over the definitions of `kept_records` and `log_compact`. There is no code here.
#![tactic(auto)]
