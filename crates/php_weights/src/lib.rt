// How large trees are: what a walk over a tree uses up, for the proofs of walks. There is no code.
#![tactic(auto)]
