// No code: both engines called side by side answer alike until 13, in Rattle and in C (02, CR 12).
// specs/ has the calls side by side, as their contracts allow; proofs/ shows that they answer alike.
#![tactic(auto)]
