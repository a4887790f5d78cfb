// The copy of what stands at a place, in a memory that copies at once.
#![tactic(auto)]

mod content;
mod standing;

pub use content::copy_content;
