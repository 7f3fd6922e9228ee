// The rescue of a damaged figure, of what the call answers and leaves in the lent rows. The statements stand in specs/, their proofs in
// proofs/: there is no function.
#![tactic(auto)]
