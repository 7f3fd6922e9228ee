// What a pass is worth. The statements stand in specs/, their proofs in proofs/: they speak of the meaning of the judge, so there is
// no function.
#![tactic(auto)]
