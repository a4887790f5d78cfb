// Temporaries as texts.
ghost use Rattle.std.specs.Prelude.{◌≡◌, Some, IfOk};
ghost use Rattle.php_memdef.specs.Contents.{Content};
ghost use Rattle.php_memdef.specs.Meanings.{SomeMeant, EachMeant};
ghost use Rattle.php_actions.specs.Steps.{operand};
ghost use Rattle.php_actions.specs.Operators.{text_if};
ghost use Rattle.php_vm_actions.specs.Operands.{HasOperand, text_in};

use crate::operands::{Operand, operand_at};
use php_base::NoMemory;
use php_memdef::{Block, Memory};
use php_value::{Scalar, Text, to_text};
use std::alloc::Global;

// The text of every array.
const ARRAY: &str = "Array";

/// The text of an operand. An object has none of itself.
pub fn text_of(alloc: Global, operand: &Operand) -> Result<Text, NoMemory>
    ensures { IfOk result (λ t. text_in operand.now ≡ Some t) }
{
    match operand {
        Operand::Scalar(v) => to_text(alloc, v),
        Operand::Array(_) => Text::from_bytes(alloc, ARRAY.as_bytes()),
        Operand::Object => Err(NoMemory),
    }
}

/// The text of a temporary.
pub fn text_at<M: Memory>(
    alloc: Global,
    memory: &M,
    block: Block,
    depth: usize,
) -> Result<Text, NoMemory>
    requires { SomeMeant (M.means memory.now) (HasOperand block.0 depth) }
    ensures { EachMeant (M.means memory.now)
        (λ m. HasOperand block.0 depth m → IfOk result (λ t. text_if (operand m block.0 depth) ≡ Some t)) }
{
    let operand = operand_at(alloc, memory, block, depth)?;
    text_of(alloc, &operand)
}
