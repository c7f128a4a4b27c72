// What a board's start and step mean in the rules' words: definitions in specs/, theorems in proofs/. No code.
#![tactic(auto)]
