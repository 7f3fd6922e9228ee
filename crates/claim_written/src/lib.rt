// The writers of figures, of what the calls answer and leave in the lent rows. The statements stand in specs/, their proofs in proofs/:
// there is no function.
#![tactic(auto)]
