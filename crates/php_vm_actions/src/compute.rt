// What operators compute from what their operands show.
ghost use Rattle.std.specs.Prelude.{◌≡◌, Some};
ghost use Rattle.php_value.specs.Operator.{complement_of};
ghost use Rattle.php_actions.specs.Operators.{joined_texts, sign_of, on_scalar, counted_by};
ghost use Rattle.php_vm_actions.specs.Operands.{Tells, scalar_in, truth_in, text_in, number_in, int_in, one_in, operated_in, unites};

use crate::operands::Operand;
use crate::texts::text_of;
use php_actions::OperatorAction;
use php_value::{
    ErrorKind, Op, Scalar, Stopped, arith, complement, count_down, count_up, to_bool, to_int,
};
use std::alloc::Global;

/// Whether the operator unites its two operands, which are arrays.
pub fn unites(op: Op, left: &Operand, right: &Operand) -> bool
    ensures { result ≡ unites op left.now right.now }
{
    matches!(
        (op, left, right),
        (Op::Add, Operand::Array(_), Operand::Array(_))
    )
}

/// What a binary operator gives. Two arrays are united elsewhere.
pub fn operated(alloc: Global, op: Op, left: &Operand, right: &Operand) -> Result<Scalar, Stopped>
    ensures { Tells result (operated_in op left.now right.now) }
{
    match (op, left, right) {
        (op, Operand::Scalar(v), Operand::Scalar(w)) => arith(alloc, op, v, w),
        (Op::Concat, _, _) => joined(alloc, left, right),
        (_, Operand::Scalar(v), _) => {
            to_int(v)?;
            Err(Stopped::Throws(ErrorKind::UNSUPPORTED_OPERANDS))
        }
        (_, _, _) => Err(Stopped::Throws(ErrorKind::UNSUPPORTED_OPERANDS)),
    }
}

fn joined(alloc: Global, left: &Operand, right: &Operand) -> Result<Scalar, Stopped>
    ensures { Tells result (joined_texts (text_in left.now) (text_in right.now)) }
{
    let left = text_of(alloc, left)?;
    let right = text_of(alloc, right)?;
    arith(alloc, Op::Concat, &Scalar::Str(left), &Scalar::Str(right))
}

/// What an action on one operand gives.
pub fn computed(
    alloc: Global,
    action: &OperatorAction,
    operand: &Operand,
) -> Result<Scalar, Stopped>
    ensures { Tells result (one_in action.now operand.now) }
{
    match action {
        OperatorAction::ToBool => Ok(Scalar::Bool(truth(operand))),
        OperatorAction::Not => Ok(Scalar::Bool(!truth(operand))),
        OperatorAction::ToInt => int(operand),
        OperatorAction::ToText => Ok(Scalar::Str(text_of(alloc, operand)?)),
        OperatorAction::Sign { negative } => signed(alloc, *negative, operand),
        OperatorAction::Complement => complemented(alloc, operand),
        OperatorAction::Count { up } => counted(*up, operand),
        _ => Err(Stopped::NoMemory),
    }
}

fn truth(operand: &Operand) -> bool
    ensures { result ≡ truth_in operand.now }
{
    match operand {
        Operand::Scalar(v) => to_bool(v),
        Operand::Array(has_entries) => *has_entries,
        Operand::Object => true,
    }
}

fn int(operand: &Operand) -> Result<Scalar, Stopped>
    ensures { Tells result (int_in operand.now) }
{
    match operand {
        Operand::Scalar(v) => Ok(Scalar::Int(to_int(v)?)),
        Operand::Array(has_entries) => Ok(Scalar::Int(i64::from(*has_entries))),
        Operand::Object => Err(Stopped::Throws(ErrorKind::UNSUPPORTED_OPERANDS)),
    }
}

// The number of an operand, with the other sign where that is said.
fn signed(alloc: Global, negative: bool, operand: &Operand) -> Result<Scalar, Stopped>
    ensures { Tells result (Some (sign_of negative (number_in operand.now))) }
{
    match operand {
        Operand::Scalar(v) => {
            let number = Scalar::Int(to_int(v)?);
            let zero = Scalar::Int(0);
            arith(
                alloc,
                if negative { Op::Sub } else { Op::Add },
                &zero,
                &number,
            )
        }
        Operand::Array(_) | Operand::Object => Err(Stopped::Throws(
            ErrorKind::UNSUPPORTED_OPERANDS,
        )),
    }
}

fn complemented(alloc: Global, operand: &Operand) -> Result<Scalar, Stopped>
    ensures { Tells result (Some (on_scalar complement_of ErrorKind.UNSUPPORTED_OPERANDS (scalar_in operand.now))) }
{
    match operand {
        Operand::Scalar(v) => complement(alloc, v),
        Operand::Array(_) | Operand::Object => Err(Stopped::Throws(
            ErrorKind::UNSUPPORTED_OPERANDS,
        )),
    }
}

fn counted(up: bool, operand: &Operand) -> Result<Scalar, Stopped>
    ensures { Tells result (Some (on_scalar (counted_by up) ErrorKind.NOT_COUNTABLE (scalar_in operand.now))) }
{
    match operand {
        Operand::Scalar(v) => { if up { count_up(v) } else { count_down(v) } }
        Operand::Array(_) | Operand::Object => Err(Stopped::Throws(ErrorKind::NOT_COUNTABLE)),
    }
}
