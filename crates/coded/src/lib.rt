// Demand 3 of the code: every run of its own boards, shard groups and sessions; this crate has no code.
#![tactic(auto)]
