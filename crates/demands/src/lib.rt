// No code: the customer's demands as theorems about the definitions; read proofs/Demands.antt.
#![tactic(auto)]
