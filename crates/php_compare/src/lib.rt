// How the contents of a memory compare, as definitions. The library carries them out, and the machine says by them
// what its actions do.
#![tactic(auto)]

pub mod laws;
