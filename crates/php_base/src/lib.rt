// What every other crate stands on: want of memory as an error of its own, the count of entries
// made, and the outside of the engine: a shelf that gives files and a sink that takes bytes.
#![tactic(auto)]

mod mem_shelf;
mod mem_sink;
mod memory;
mod shelf;
mod sink;
mod std_shelf;
mod std_sink;

pub use mem_shelf::MemShelf;
pub use mem_sink::MemSink;
pub use memory::{Ledger, NoMemory};
pub use shelf::{Shelf, ShelfFail};
pub use sink::{Failed, Sink, put_all};
pub use std_shelf::StdShelf;
pub use std_sink::StdSink;
