// The operators on two integers.
ghost use Rattle.std.specs.Prelude.{◌≡◌, ◌≢◌, ℕ, ◌+◌, ◌%◌, nat_lt, if◌then◌else◌, pos, ◌≤ℤ◌, MatchOption};
ghost use Rattle.php_value.specs.Operator.{int_result, on_ints, power, quotient, remainder, shifted_left, shifted_right};

use crate::error_kind::ErrorKind;
use crate::fault::{Fault, Stopped};
use crate::op::Op;
use crate::scalar::Scalar;

// What an operator other than `.` gives.
pub fn on_ints(op: Op, x: i64, y: i64) -> Result<Scalar, Stopped>
    requires { op ≢ Op.Concat }
    ensures { result ≡ on_ints op x y }
{
    match op {
        Op::Add => in_range(x.checked_add(y)),
        Op::Sub => in_range(x.checked_sub(y)),
        Op::Mul => in_range(x.checked_mul(y)),
        Op::Pow => power(x, y),
        Op::Div => quotient(x, y),
        Op::Mod => remainder(x, y),
        Op::Shl => shifted_left(x, y),
        Op::Shr => shifted_right(x, y),
        Op::And => Ok(Scalar::Int(x & y)),
        Op::Or => Ok(Scalar::Int(x | y)),
        Op::Xor => Ok(Scalar::Int(x ^ y)),
        Op::Concat => unreachable!(),
    }
}

// A result that has no 64 bits overflows.
fn in_range(checked: Option<i64>) -> Result<Scalar, Stopped>
    ensures { MatchOption checked (result ≡ Err (Stopped.Fault Fault.Overflow)) (λ z. result ≡ Ok (Scalar.Int z)) }
{
    match checked {
        Some(value) => Ok(Scalar::Int(value)),
        None => Err(Stopped::Fault(Fault::Overflow)),
    }
}

fn power(base: i64, exponent: i64) -> Result<Scalar, Stopped>
    ensures { result ≡ power base exponent }
{
    if exponent < 0 {
        return Err(Stopped::Fault(Fault::FloatNeeded));
    }
    in_range(base.checked_pow(enough(exponent)))
}

// From 64 on a power of -1, 0 or 1 depends on whether the exponent is even, and any other power overflows.
fn enough(exponent: i64) -> u32
    requires { pos 0 ≤ℤ exponent }
    ensures { (n : ℕ) → exponent ≡ pos n → result ≡ (if nat_lt n 64 then n else 64 + n % 2) }
{
    if exponent < 64 {
        exponent as u32
    } else {
        64 + (exponent % 2) as u32
    }
}

fn quotient(x: i64, y: i64) -> Result<Scalar, Stopped>
    ensures { result ≡ quotient x y }
{
    if y == 0 {
        return Err(Stopped::Throws(ErrorKind::DIVISION_BY_ZERO));
    }
    match (x.checked_div(y), x.checked_rem(y)) {
        (Some(quotient), Some(0)) => Ok(Scalar::Int(quotient)),
        (Some(_), Some(_)) => Err(Stopped::Fault(Fault::InexactQuotient)),
        _ => Err(Stopped::Fault(Fault::Overflow)),
    }
}

fn remainder(x: i64, y: i64) -> Result<Scalar, Stopped>
    ensures { result ≡ remainder x y }
{
    match y {
        0 => Err(Stopped::Throws(ErrorKind::DIVISION_BY_ZERO)),
        // The quotient of the least integer would overflow.
        -1 => Ok(Scalar::Int(0)),
        _ => Ok(Scalar::Int(x % y)),
    }
}

fn shifted_left(x: i64, count: i64) -> Result<Scalar, Stopped>
    ensures { result ≡ shifted_left x count }
{
    match count {
        ..0 => Err(Stopped::Throws(ErrorKind::ARITHMETIC)),
        0..64 => Ok(Scalar::Int(x << count)),
        64.. => Ok(Scalar::Int(0)),
    }
}

fn shifted_right(x: i64, count: i64) -> Result<Scalar, Stopped>
    ensures { result ≡ shifted_right x count }
{
    match count {
        ..0 => Err(Stopped::Throws(ErrorKind::ARITHMETIC)),
        0..64 => Ok(Scalar::Int(x >> count)),
        64.. => Ok(Scalar::Int(if x < 0 { -1 } else { 0 })),
    }
}
