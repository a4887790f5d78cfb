// Controls in layers: places in functions of which one stands over another in the same frame.
#![tactic(auto)]

pub mod laws;
