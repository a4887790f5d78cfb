// What a value is as a bool, as an integer and as a text.
ghost use Rattle.std.specs.Prelude.{◌≡◌, IfOk};
ghost use Rattle.php_value.specs.Conversion.{bool_of, has_truth, int_of, int_of_form, text_of};

use crate::fault::Fault;
use crate::form::{Form, numeric_form};
use crate::scalar::Scalar;
use crate::text::Text;
use itoa::Buffer;
use php_base::NoMemory;
use std::alloc::Global;

/// False are null, `false`, 0, the empty text and the text `0`.
pub fn to_bool(v: &Scalar) -> bool
    ensures { result ≡ bool_of v.now }
{
    match v {
        Scalar::Null => false,
        Scalar::Bool(b) => *b,
        Scalar::Int(i) => *i != 0,
        Scalar::Str(text) => has_truth(text.bytes()),
    }
}

/// A text is the integer that it begins with, or 0. Where it begins with a number that only a float could hold, that is a
/// fault.
pub fn to_int(v: &Scalar) -> Result<i64, Fault>
    ensures { result ≡ int_of v.now }
{
    match v {
        Scalar::Null => Ok(0),
        Scalar::Bool(b) => Ok(i64::from(*b)),
        Scalar::Int(i) => Ok(*i),
        Scalar::Str(text) => int_of_form(numeric_form(text.bytes())),
    }
}

/// Whether a text is true: neither the empty text nor `0`.
pub fn has_truth(text: &[u8]) -> bool
    ensures { result ≡ has_truth text.now }
{
    !matches!(text, [] | [b'0'])
}

/// The integer that a text of this form stands for. A form that only a float could hold is a fault.
pub fn int_of_form(form: Form) -> Result<i64, Fault>
    ensures { result ≡ int_of_form form }
{
    match form {
        Form::None => Ok(0),
        Form::Int(i) | Form::LeadInt(i) => Ok(i),
        Form::Float | Form::LeadFloat => Err(Fault::FloatNeeded),
    }
}

/// Null and `false` are the empty text, `true` is `1`, and an integer is its decimal digits.
pub fn to_text(alloc: Global, v: &Scalar) -> Result<Text, NoMemory>
    ensures { IfOk result (λ t. t ≡ text_of v.now) }
{
    match v {
        Scalar::Null | Scalar::Bool(false) => Ok(Text::empty()),
        Scalar::Bool(true) => Text::from_bytes(alloc, b"1"),
        Scalar::Int(i) => Text::from_bytes(alloc, Buffer::new().format(*i).as_bytes()),
        Scalar::Str(text) => text.share(),
    }
}
