// Where an answer points in the file, and what stands there. The statements stand in specs/, their proofs in proofs/: there is no
// function.
#![tactic(auto)]
