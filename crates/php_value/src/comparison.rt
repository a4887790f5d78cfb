// How two values compare.
ghost use Rattle.std.specs.Prelude.{◌≡◌, ◌↔◌, IsTrue};
ghost use Rattle.php_value.specs.Comparison.{loosely_equal, order_of, order_by, order_of_bools, order_of_ints, order_of_texts};

use crate::conversion::{int_of_form, to_bool};
use crate::fault::Fault;
use crate::form::{Form, numeric_form};
use crate::ordering::Order;
use crate::scalar::Scalar;
use std::cmp::Ordering;

/// `===`: the same type and the same value.
pub fn strict(a: &Scalar, b: &Scalar) -> bool
    ensures { IsTrue result ↔ (a.now ≡ b.now) }
{
    a == b
}

/// `==`: the values are the same once they are made comparable. A text that only a float could hold is a fault.
pub fn loose(a: &Scalar, b: &Scalar) -> Result<bool, Fault>
    ensures { result ≡ loosely_equal a.now b.now }
{
    match order(a, b) {
        Ok(order) => Ok(order == Order::Same),
        Err(fault) => Err(fault),
    }
}

/// `<`, `<=` and the like: null and bools compare as bools, an integer with a text as with a number, two texts as integers
/// where both are, and by their bytes otherwise. A text that only a float could hold is a fault.
pub fn order(a: &Scalar, b: &Scalar) -> Result<Order, Fault>
    ensures { result ≡ order_of a.now b.now }
{
    match (a, b) {
        (Scalar::Null, Scalar::Str(t)) => order_of_texts(&[], t.bytes()),
        (Scalar::Str(s), Scalar::Null) => order_of_texts(s.bytes(), &[]),
        (Scalar::Str(s), Scalar::Str(t)) => order_of_texts(s.bytes(), t.bytes()),
        (Scalar::Int(x), Scalar::Int(y)) => Ok(order_of_ints(*x, *y)),
        (Scalar::Int(x), Scalar::Str(t)) => Ok(order_of_ints(
            *x,
            int_of_form(numeric_form(t.bytes()))?,
        )),
        (Scalar::Str(s), Scalar::Int(y)) => Ok(order_of_ints(
            int_of_form(numeric_form(s.bytes()))?,
            *y,
        )),
        _ => Ok(order_of_bools(to_bool(a), to_bool(b))),
    }
}

/// Two texts: as integers where both are written so, and by their bytes otherwise. Two numbers of which only a float could hold
/// one are a fault, unless they are the same bytes.
pub fn order_of_texts(s: &[u8], t: &[u8]) -> Result<Order, Fault>
    ensures { result ≡ order_of_texts s.now t.now }
{
    if s == t {
        return Ok(Order::Same);
    }
    match (numeric_form(s), numeric_form(t)) {
        (Form::Int(x), Form::Int(y)) => Ok(order_of_ints(x, y)),
        (Form::Int(_) | Form::Float, Form::Int(_) | Form::Float) => Err(Fault::FloatNeeded),
        _ => Ok(order_by(s.cmp(t))),
    }
}

/// The lesser integer comes first.
pub fn order_of_ints(x: i64, y: i64) -> Order
    ensures { result ≡ order_of_ints x y }
{
    order_by(x.cmp(&y))
}

/// False is before true.
pub fn order_of_bools(x: bool, y: bool) -> Order
    ensures { result ≡ order_of_bools x y }
{
    order_by(x.cmp(&y))
}

/// The outcome that the host's ordering stands for.
pub fn order_by(ordering: Ordering) -> Order
    ensures { result ≡ order_by ordering }
{
    match ordering {
        Ordering::Less => Order::Less,
        Ordering::Equal => Order::Same,
        Ordering::Greater => Order::More,
    }
}
