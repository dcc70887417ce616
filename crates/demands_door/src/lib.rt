// No code: the demands about every sequence of `door`'s calls, from what C sees; read this one first.
// proofs/Demands.antt has each demand under its sentence.
#![tactic(auto)]
