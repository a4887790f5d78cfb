// The two top temporaries, compared.
ghost use Rattle.std.specs.Prelude.{◌≡◌, Some};
ghost use Rattle.php_memdef.specs.Contents.{Content};
ghost use Rattle.php_memdef.specs.Meanings.{SomeMeant, EachMeant};
ghost use Rattle.php_compare.specs.Ordering.{order_in};
ghost use Rattle.php_compare.specs.Identity.{same_in};
ghost use Rattle.php_actions.specs.Steps.{operand};
ghost use Rattle.php_actions.specs.Comparisons.{related, number_of_order, compared_as, identical_as};
ghost use Rattle.php_vm_actions.specs.Operands.{HasTwo, Tells};

use crate::operands::temporary;
use php_actions::Relation;
use php_lib::{compare, same};
use php_memdef::{Block, Memory};
use php_value::{Order, Scalar, Stopped};
use std::alloc::Global;

/// What a relation makes of an order.
fn related(relation: Relation, order: Order) -> Scalar
    ensures { result ≡ related relation order }
{
    match relation {
        Relation::Equal => Scalar::Bool(matches!(order, Order::Same)),
        Relation::NotEqual => Scalar::Bool(!matches!(order, Order::Same)),
        Relation::Less => Scalar::Bool(matches!(order, Order::Less)),
        Relation::LessEqual => Scalar::Bool(matches!(order, Order::Less | Order::Same)),
        Relation::Greater => Scalar::Bool(matches!(order, Order::More)),
        Relation::GreaterEqual => Scalar::Bool(matches!(order, Order::Same | Order::More)),
        Relation::Compared => number_of_order(order),
    }
}

fn number_of_order(order: Order) -> Scalar
    ensures { result ≡ number_of_order order }
{
    match order {
        Order::Less => Scalar::Int(-1),
        Order::Same => Scalar::Int(0),
        Order::More | Order::Apart => Scalar::Int(1),
    }
}

/// What a relation says of the two top temporaries, of which the left one is below.
pub fn compared<M: Memory>(
    alloc: Global,
    memory: &M,
    block: Block,
    relation: Relation,
) -> Result<Scalar, Stopped>
    requires { SomeMeant (M.means memory.now) (HasTwo block.0) }
    ensures { EachMeant (M.means memory.now)
        (λ m. (x y : Content) → operand m block.0 1 ≡ Some x → operand m block.0 0 ≡ Some y
        → Tells result (Some (compared_as relation (order_in m x y)))) }
{
    let left = temporary(alloc, block, 1);
    let right = temporary(alloc, block, 0);
    match compare(alloc, memory, &left, &right) {
        Ok(order) => Ok(related(relation, order)),
        Err(stopped) => Err(stopped),
    }
}

/// Whether the two top temporaries are identical, or whether they aren't.
pub fn identical<M: Memory>(
    alloc: Global,
    memory: &M,
    block: Block,
    negated: bool,
) -> Result<Scalar, Stopped>
    requires { SomeMeant (M.means memory.now) (HasTwo block.0) }
    ensures { EachMeant (M.means memory.now)
        (λ m. (x y : Content) → operand m block.0 1 ≡ Some x → operand m block.0 0 ≡ Some y
        → Tells result (Some (identical_as negated (same_in m x y)))) }
{
    let left = temporary(alloc, block, 1);
    let right = temporary(alloc, block, 0);
    match same(alloc, memory, &left, &right) {
        Ok(is_same) => Ok(Scalar::Bool(if negated { !is_same } else { is_same })),
        Err(stopped) => Err(stopped),
    }
}
