// The faults of a script's forms: no place, no constant expression, bad lists and bad uses.
#![tactic(auto)]

mod body;
mod class;
mod member;
mod modifiers;
mod script;
mod signature;

pub use script::first_form_fault;
