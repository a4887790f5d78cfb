// Lists that grow by links made beforehand.
#![tactic(auto)]

mod chain;

pub use chain::{Chain, Link};
