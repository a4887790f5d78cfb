// Traits: what the classes of a script have once the traits that they use are flattened, and what may be wrong with that.
#![tactic(auto)]
