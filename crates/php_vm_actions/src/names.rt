// Actions on what a script names beside its variables.
ghost use Rattle.std.specs.Prelude.{ℕ};
ghost use Rattle.php_actions.specs.Names.{effect_name};
ghost use Rattle.php_vm_actions.specs.Acting.{Acts, frame_of};

use crate::did::{Cause, Did};
use php_actions::NameAction;
use php_frames::Frame;
use php_memdef::Memory;
use php_value::ErrorKind;

/// Does an action on names. No action defines constants yet, so none is found.
pub fn do_name<M: Memory>(frame: &Frame, memory: &M, action: &NameAction) -> Did
    ensures { (statics : ℕ) → Acts (M.means memory.now) (M.means memory.now) frame.now.block.0 result
        (effect_name action.now statics (frame_of frame.now)) }
{
    match action {
        NameAction::PushConstant(name) => match name.share() {
            Ok(name) => Did::Ends(Cause::Error(ErrorKind::UNDEFINED_CONSTANT, name, frame.line)),
            Err(_) => Did::NoMemory,
        },
    }
}
