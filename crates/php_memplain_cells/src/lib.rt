// What a memory that copies at once is made of: counted stores and objects, blocks, and what falls.
#![tactic(auto)]

mod block;
mod cells;
mod content;
mod falling;
mod load;
mod objects;
mod stores;

pub use block::{Block, Variable};
pub use cells::Cells;
pub use content::{Content, Item};
pub use falling::First;
pub use load::{Elements, Load, Property};
pub use objects::{Dropped, Object, drop_handle};
pub use stores::{Store, drop_link};
