// The static checks in one call: a legal script, or the first fault of one that isn't.
#![tactic(auto)]

mod fail;
mod laws;
mod legal;
mod script;

pub use fail::NameFail;
pub use laws::one_answer;
pub use legal::Legal;
pub use script::check;
