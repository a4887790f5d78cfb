// What the steps of a run do to its data: the actions and the facts of a script as types of the program, and,
// as definitions alone, the data of a run, the effect of each action and what comes between them.
#![tactic(auto)]

mod action;
mod calls;
mod ending;
mod facts;
mod jumps;
pub mod laws;
mod names;
mod operators;
mod output;
mod place_form;
mod places;
mod relation;
mod stack;

pub use action::Action;
pub use calls::CallAction;
pub use ending::Ending;
pub use facts::{BaseType, Facts, FunctionFact, ParamFact, TypeFact};
pub use jumps::JumpAction;
pub use names::NameAction;
pub use operators::OperatorAction;
pub use output::OutputAction;
pub use place_form::{BaseForm, PlaceForm, StepForm};
pub use places::PlaceAction;
pub use relation::Relation;
pub use stack::StackAction;
