// All meshes of a Caligari file where they stand: their meaning. The definitions and statements stand in specs/, their proofs in
// proofs/: no function.
#![tactic(auto)]
