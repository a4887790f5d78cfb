// Writes to places, in a memory that copies at once.
#![tactic(auto)]

mod binding;
mod growing;
mod hanging;
mod making;
mod moving;
mod pointing;
mod reaching;
mod standing;
mod way;
mod writes;

pub use growing::Grew;
pub use reaching::{Arrival, reach};
pub use writes::{assign, bind, link};
