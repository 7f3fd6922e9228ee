// All meshes of a figure where they stand in its file: their meaning. The definitions and statements stand in specs/, their
// proofs in proofs/: no function.
#![tactic(auto)]
