// Nothing runs here: specs/ and proofs/ hold what digital search trees have in common.
#![tactic(auto)]
