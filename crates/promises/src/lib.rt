// Theorems over all crates: the statements stand in specs/, their proofs in proofs/. There is no code here.
#![tactic(auto)]
