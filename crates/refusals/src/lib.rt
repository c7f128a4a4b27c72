// "A refusal number is given exactly when ..", as a table of causes for each receiver over the rules; this crate has no code.
#![tactic(auto)]
