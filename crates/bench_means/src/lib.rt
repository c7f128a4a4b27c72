// The bench program in the rules' words: definitions in specs/, theorems in proofs/. No code.
#![tactic(auto)]
