// No code: the demands as theorems about every sequence of `engine`'s calls; read proofs/Demands.antt.
#![tactic(auto)]
