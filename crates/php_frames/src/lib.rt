// What a call keeps beside its block: the frame with the completion that is under way in it, the stack of
// frames, and the ranges of places that say where a completion goes on.
#![tactic(auto)]

mod completion;
mod frame;
mod frames;
mod ranges;

pub use completion::Completion;
pub use frame::{Frame, Way};
pub use frames::{Frames, PushFail};
pub use ranges::{HandlerRange, Ranges, Serves, handler};
