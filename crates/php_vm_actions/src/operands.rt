// What temporaries show.
ghost use Rattle.std.specs.Prelude.{◌≡◌, Some, IfOk};
ghost use Rattle.php_memdef.specs.Contents.{Content};
ghost use Rattle.php_memdef.specs.Meanings.{SomeMeant, EachMeant};
ghost use Rattle.php_actions.specs.Steps.{temp, operand};
ghost use Rattle.php_actions.specs.Contents.{is_null, truth_of};
ghost use Rattle.php_vm_actions.specs.Looks.{operand_seen, truth_seen, null_seen};
ghost use Rattle.php_vm_actions.specs.Operands.{HasOperand, Sees};

use php_base::NoMemory;
use php_memdef::{Base, Block, Memory, Path, Peek, Place};
use php_value::Scalar;
use std::alloc::Global;

/// A temporary as the operators see it.
#[derive(Drop)]
pub enum Operand {
    Scalar(Scalar),
    /// An array, and whether it has entries.
    Array(bool),
    Object,
}

/// The place of a temporary, counted from the top, which is 0.
pub fn temporary(alloc: Global, block: Block, depth: usize) -> Place
    ensures { result ≡ temp block.0 depth }
{
    Place {
        base: Base::Temp(block, depth),
        path: Path::new(alloc),
    }
}

// What is missing counts as null.
fn operand_of(look: &Peek<'_>) -> Result<Operand, NoMemory>
    ensures { IfOk result (λ o. o ≡ operand_seen look.now) }
{
    match look {
        Peek::Absent | Peek::Null => Ok(Operand::Scalar(Scalar::Null)),
        Peek::Bool(b) => Ok(Operand::Scalar(Scalar::Bool(*b))),
        Peek::Int(i) => Ok(Operand::Scalar(Scalar::Int(*i))),
        Peek::Str(text) => Ok(Operand::Scalar(Scalar::Str(text.share()?))),
        Peek::Arr(entries) => Ok(Operand::Array(*entries > 0)),
        Peek::Obj(_) => Ok(Operand::Object),
    }
}

/// A temporary. A text is shared.
pub fn operand_at<M: Memory>(
    alloc: Global,
    memory: &M,
    block: Block,
    depth: usize,
) -> Result<Operand, NoMemory>
    requires { SomeMeant (M.means memory.now) (HasOperand block.0 depth) }
    ensures { EachMeant (M.means memory.now)
        (λ m. (x : Content) → operand m block.0 depth ≡ Some x → IfOk result (λ o. Sees o x)) }
{
    let place = temporary(alloc, block, depth);
    let look = memory.peek(&place);
    operand_of(&look)
}

/// Whether a temporary is a truth.
pub fn truth_at<M: Memory>(alloc: Global, memory: &M, block: Block, depth: usize) -> bool
    requires { SomeMeant (M.means memory.now) (HasOperand block.0 depth) }
    ensures { EachMeant (M.means memory.now)
        (λ m. (x : Content) → operand m block.0 depth ≡ Some x → result ≡ truth_of x) }
{
    let place = temporary(alloc, block, depth);
    let look = memory.peek(&place);
    truth_of_peek(&look)
}

fn truth_of_peek(look: &Peek<'_>) -> bool
    ensures { result ≡ truth_seen look.now }
{
    match look {
        Peek::Absent | Peek::Null => false,
        Peek::Bool(b) => *b,
        Peek::Int(i) => *i != 0,
        Peek::Str(text) => !matches!(text.bytes(), [] | [b'0']),
        Peek::Arr(entries) => *entries > 0,
        Peek::Obj(_) => true,
    }
}

/// Whether a temporary is null.
pub fn is_null_at<M: Memory>(alloc: Global, memory: &M, block: Block, depth: usize) -> bool
    requires { SomeMeant (M.means memory.now) (HasOperand block.0 depth) }
    ensures { EachMeant (M.means memory.now)
        (λ m. (x : Content) → operand m block.0 depth ≡ Some x → result ≡ is_null x) }
{
    let place = temporary(alloc, block, depth);
    let look = memory.peek(&place);
    is_null_peek(&look)
}

fn is_null_peek(look: &Peek<'_>) -> bool
    ensures { result ≡ null_seen look.now }
{
    match look {
        Peek::Absent | Peek::Null => true,
        Peek::Bool(_) | Peek::Int(_) | Peek::Str(_) | Peek::Arr(_) | Peek::Obj(_) => false,
    }
}
