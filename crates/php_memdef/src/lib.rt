// The memory model, the contract of every memory, and the types that its calls take and give.
#![tactic(auto)]

mod answer;
mod memory;
mod names;
mod path;
mod place;
mod worked;

pub use answer::{Fallen, Met, NoObject, Peek, Read, Wrote};
pub use memory::Memory;
pub use names::{Block, Name, Obj, StaticId};
pub use path::Path;
pub use place::{Base, Place, PropName, Seen, Step};
pub use worked::worked_examples;
