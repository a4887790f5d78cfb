// The operators on values.
ghost use Rattle.std.specs.Prelude.{◌≡◌, ◌≢◌, false};
ghost use Rattle.php_value.specs.Conversion.{text_of};
ghost use Rattle.php_value.specs.Scalar.{is_text};
ghost use Rattle.php_value.specs.Stopped.{IsUnlessNoMemory};
ghost use Rattle.php_value.specs.Operator.{arith_of, complement_of, countable, counted_down, counted_up, makes_text, on_numbers};

use crate::bytes::{and_bytes, complement_bytes, joined, or_bytes, xor_bytes};
use crate::conversion::to_int;
use crate::error_kind::ErrorKind;
use crate::fault::{Fault, Stopped};
use crate::form::{Form, numeric_form};
use crate::integers::on_ints;
use crate::op::Op;
use crate::scalar::Scalar;
use itoa::Buffer;
use std::alloc::Global;

/// What a binary operator gives. `.` joins the texts of both, `&`, `|` and `^` of two texts work byte by byte, and all else
/// is done on integers, of which the left one is taken first. Memory is taken only where a text is made.
pub fn arith(alloc: Global, op: Op, a: &Scalar, b: &Scalar) -> Result<Scalar, Stopped>
    ensures value { IsUnlessNoMemory result (arith_of op a.now b.now) }
    ensures takes_no_memory { makes_text op a.now b.now ≡ false → result ≡ arith_of op a.now b.now }
{
    match (op, a, b) {
        (Op::Concat, _, _) => concat(alloc, a, b),
        (Op::And, Scalar::Str(s), Scalar::Str(t)) => Ok(Scalar::Str(and_bytes(
            alloc,
            s.bytes(),
            t.bytes(),
        )?)),
        (Op::Or, Scalar::Str(s), Scalar::Str(t)) => Ok(Scalar::Str(or_bytes(
            alloc,
            s.bytes(),
            t.bytes(),
        )?)),
        (Op::Xor, Scalar::Str(s), Scalar::Str(t)) => Ok(Scalar::Str(xor_bytes(
            alloc,
            s.bytes(),
            t.bytes(),
        )?)),
        _ => on_numbers(op, a, b),
    }
}

fn on_numbers(op: Op, a: &Scalar, b: &Scalar) -> Result<Scalar, Stopped>
    requires { op ≢ Op.Concat }
    ensures { result ≡ on_numbers op a.now b.now }
{
    let x = to_int(a)?;
    let y = to_int(b)?;
    on_ints(op, x, y)
}

fn concat(alloc: Global, a: &Scalar, b: &Scalar) -> Result<Scalar, Stopped>
    ensures { IsUnlessNoMemory result (arith_of Op.Concat a.now b.now) }
{
    let mut left = Buffer::new();
    let mut right = Buffer::new();
    joined(alloc, text_bytes(a, &mut left), text_bytes(b, &mut right))
}

// The text of a value. An integer's digits stand in `digits`.
fn text_bytes<'a>(v: &'a Scalar, digits: &'a mut Buffer) -> &'a [u8]
    ensures { result.now ≡ text_of v.now }
{
    match v {
        Scalar::Null | Scalar::Bool(false) => b"",
        Scalar::Bool(true) => b"1",
        Scalar::Int(i) => digits.format(*i).as_bytes(),
        Scalar::Str(text) => text.bytes(),
    }
}

/// `~`: of an integer all bits, of a text all bits of its bytes. Of null and bools it throws.
pub fn complement(alloc: Global, v: &Scalar) -> Result<Scalar, Stopped>
    ensures value { IsUnlessNoMemory result (complement_of v.now) }
    ensures takes_no_memory { is_text v.now ≡ false → result ≡ complement_of v.now }
{
    match v {
        Scalar::Int(i) => Ok(Scalar::Int(-1 - *i)),
        Scalar::Str(text) => Ok(Scalar::Str(complement_bytes(alloc, text.bytes())?)),
        Scalar::Null | Scalar::Bool(_) => Err(Stopped::Throws(ErrorKind::UNSUPPORTED_OPERANDS)),
    }
}

/// `++`: null becomes 1 and a bool stays. A text that isn't an integer as a whole can't be counted.
pub fn count_up(v: &Scalar) -> Result<Scalar, Stopped>
    ensures { result ≡ counted_up v.now }
{
    match v {
        Scalar::Null => Ok(Scalar::Int(1)),
        Scalar::Bool(b) => Ok(Scalar::Bool(*b)),
        Scalar::Int(i) => on_ints(Op::Add, *i, 1),
        Scalar::Str(text) => on_ints(Op::Add, countable(text.bytes())?, 1),
    }
}

/// `--`: null and a bool stay. A text that isn't an integer as a whole can't be counted.
pub fn count_down(v: &Scalar) -> Result<Scalar, Stopped>
    ensures { result ≡ counted_down v.now }
{
    match v {
        Scalar::Null => Ok(Scalar::Null),
        Scalar::Bool(b) => Ok(Scalar::Bool(*b)),
        Scalar::Int(i) => on_ints(Op::Sub, *i, 1),
        Scalar::Str(text) => on_ints(Op::Sub, countable(text.bytes())?, 1),
    }
}

// The integer that a text is as a whole.
fn countable(bytes: &[u8]) -> Result<i64, Stopped>
    ensures { result ≡ countable bytes.now }
{
    match numeric_form(bytes) {
        Form::Int(i) => Ok(i),
        Form::Float | Form::LeadFloat => Err(Stopped::Fault(Fault::FloatNeeded)),
        Form::None | Form::LeadInt(_) => Err(Stopped::Throws(ErrorKind::NOT_COUNTABLE)),
    }
}
