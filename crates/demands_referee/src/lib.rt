// No code: what holds of the referee over any pieces, in Rattle and in C, and beside the checker (02, CR 14).
// specs/ has the calls as their contracts allow; proofs/ the theorems.
#![tactic(auto)]
