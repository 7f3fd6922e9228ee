// What a Cinema 4D file is, and what the calls of its reader answer: the definitions stand in specs/, theorems about them in proofs/;
// there is no function.
#![tactic(auto)]
