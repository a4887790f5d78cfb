// A memory that keeps each array by itself and copies at once.
#![tactic(auto)]

mod changing;
mod copying;
mod handles;
mod memory;
mod memory_impl;
mod names;
mod objects;
mod reading;
mod turning;
mod writing;

pub use memory::MemPlain;
