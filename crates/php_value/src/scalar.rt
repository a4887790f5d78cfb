// Values without parts.
use crate::text::Text;
use php_base::NoMemory;

/// A value that is neither an array nor an object.
#[derive(Debug, Drop, Eq, PartialEq)]
pub enum Scalar {
    Null,
    Bool(bool),
    Int(i64),
    Str(Text),
}

impl Scalar {
    ghost use Rattle.std.specs.Prelude.{◌≡◌, false, IfOk, IsOk};
    ghost use Rattle.php_value.specs.Scalar.{is_text};

    /// The same value once more. A text is shared and not copied, and no other value takes memory.
    pub fn share(&self) -> Result<Scalar, NoMemory>
        ensures same { IfOk result (λ v. v ≡ self.now) }
        ensures takes_no_memory { is_text self.now ≡ false → IsOk result }
    {
        match self {
            Scalar::Null => Ok(Scalar::Null),
            Scalar::Bool(b) => Ok(Scalar::Bool(*b)),
            Scalar::Int(i) => Ok(Scalar::Int(*i)),
            Scalar::Str(text) => Ok(Scalar::Str(text.share()?)),
        }
    }
}
