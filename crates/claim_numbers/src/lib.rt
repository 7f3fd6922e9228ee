// What C is told by one 64-bit number, of the definitions that the contracts of the boundary cite. The statements stand in
// specs/, a file for each format, their proofs in proofs/: there is no function.
#![tactic(auto)]
