// Values for parameters and results with a declared type.
ghost use Rattle.std.specs.Prelude.{◌≡◌, ◌≢◌};
ghost use Rattle.php_value.specs.Conversion.{coerced, fitting_int};
ghost use Rattle.php_value.specs.Stopped.{IsUnlessNoMemory};

use crate::conversion::{to_bool, to_text};
use crate::error_kind::ErrorKind;
use crate::fault::{Fault, Stopped};
use crate::form::{Form, numeric_form};
use crate::scalar::Scalar;
use crate::scalar_type::ScalarType;
use std::alloc::Global;

/// The value as one of the declared type. Each type takes its own values, and where types aren't strict it takes what can be
/// converted without loss of meaning. Null fits no type. Memory is taken only for the type of texts.
pub fn coerce(alloc: Global, t: ScalarType, is_strict: bool, v: &Scalar) -> Result<Scalar, Stopped>
    ensures value { IsUnlessNoMemory result (coerced t is_strict v.now) }
    ensures takes_no_memory { t ≢ ScalarType.Str → result ≡ coerced t is_strict v.now }
{
    match (t, v) {
        (ScalarType::Int, Scalar::Int(i)) => Ok(Scalar::Int(*i)),
        (ScalarType::Str, Scalar::Str(text)) => Ok(Scalar::Str(text.share()?)),
        (ScalarType::Bool, Scalar::Bool(b)) => Ok(Scalar::Bool(*b)),
        (_, Scalar::Null) => Err(Stopped::Throws(ErrorKind::TYPE_MISMATCH)),
        _ if is_strict => Err(Stopped::Throws(ErrorKind::TYPE_MISMATCH)),
        (ScalarType::Int, Scalar::Bool(b)) => Ok(Scalar::Int(i64::from(*b))),
        (ScalarType::Int, Scalar::Str(text)) => Ok(Scalar::Int(fitting_int(text.bytes())?)),
        (ScalarType::Str, _) => Ok(Scalar::Str(to_text(alloc, v)?)),
        (ScalarType::Bool, _) => Ok(Scalar::Bool(to_bool(v))),
    }
}

// The integer that a text begins with.
fn fitting_int(bytes: &[u8]) -> Result<i64, Stopped>
    ensures { result ≡ fitting_int bytes.now }
{
    match numeric_form(bytes) {
        Form::Int(i) | Form::LeadInt(i) => Ok(i),
        Form::Float | Form::LeadFloat => Err(Stopped::Fault(Fault::FloatNeeded)),
        Form::None => Err(Stopped::Throws(ErrorKind::TYPE_MISMATCH)),
    }
}
