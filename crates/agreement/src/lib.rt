// Mixed runs of boards and shard groups, and of sessions, worked out by the second program and computed by the rules; this crate has no code.
#![tactic(auto)]
