// Slips, of what the calls answer and leave in the lent rows: accepted and written exactly, and an entry from its making to its
// comparison. The statements stand in specs/, their proofs in proofs/: there is no function.
#![tactic(auto)]
