// No code: the demands about every sequence of the rolling card's calls for C (02, CR 9).
// Read proofs/Demands.antt.
#![tactic(auto)]
