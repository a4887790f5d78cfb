// All actions, by groups.

use crate::calls::CallAction;
use crate::jumps::JumpAction;
use crate::names::NameAction;
use crate::operators::OperatorAction;
use crate::output::OutputAction;
use crate::places::PlaceAction;
use crate::stack::StackAction;

/// What a step does, over the temporaries of the newest frame's block. The comment of each says what it finds
/// on top and what it leaves there: the top stands on the right.
#[derive(Drop)]
pub enum Action {
    Stack(StackAction),
    Place(PlaceAction),
    Operator(OperatorAction),
    Output(OutputAction),
    Name(NameAction),
    Call(CallAction),
    Jump(JumpAction),
}
