// Reads the signatures of functions from the tokens of a script: parameters, and the type of the result.
#![tactic(auto)]

mod fronts;
mod look;
mod params;
mod parse;
mod part;
mod read;
mod signature;
mod types;

pub use parse::parse_signature;
pub use php_reader::ParseFail;
pub use read::ReadSignature;
pub use signature::read_signature;
