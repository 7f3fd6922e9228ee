// A file is refused as too long exactly when it is: no bound on the steps of a walk is ever spent. The statements stand in specs/, their
// proofs in proofs/: there is no function.
#![tactic(auto)]
