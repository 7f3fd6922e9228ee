// Nothing runs here: specs/ and proofs/ hold how the names that a slip has so far stand in a tree, for its reader and its writer.
#![tactic(auto)]
