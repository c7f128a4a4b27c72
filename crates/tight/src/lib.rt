// When a promise is tight: it admits one outcome only. This crate has no code.
#![tactic(auto)]
