// No code: worked cases of the definitions as tables that the prover computes.
#![tactic(auto)]
