// Keys of arrays.
ghost use Rattle.std.specs.Prelude.{◌≡◌, ◌↔◌, ℤ, nat_eq, FitsSigned, IsTrue};
ghost use Rattle.php_value.specs.declared.key.Key.{Key};
ghost use Rattle.std.specs.Cmp.Lexicographic.{pointwise};
ghost use Rattle.std.specs.Fmt.{signed_decimal};
ghost use Rattle.std.specs.Int.{w64};
ghost use Rattle.php_value.specs.Key.{key_of_text, key_of_scalar};

use crate::decimal::written_int;
use crate::scalar::Scalar;
use crate::text::Text;
use itoa::Buffer;
use php_base::NoMemory;

/// What an entry of an array is found by.
#[derive(Debug, Drop, Eq, Hash, PartialEq)]
pub enum Key {
    Int(i64),
    Str(Text),
}

impl Key {
    ghost use Rattle.std.specs.Prelude.{◌≡◌, false, IfOk, IsOk};
    ghost use Rattle.php_value.specs.Scalar.{is_text_key};

    /// The same key once more. A text is shared and not copied, and an integer takes no memory.
    pub fn share(&self) -> Result<Key, NoMemory>
        ensures same { IfOk result (λ k. k ≡ self.now) }
        ensures takes_no_memory { is_text_key self.now ≡ false → IsOk result }
    {
        match self {
            Key::Int(i) => Ok(Key::Int(*i)),
            Key::Str(text) => Ok(Key::Str(text.share()?)),
        }
    }
}

/// Keys are equal where `==` says so, and nowhere else. An ordered map over keys so holds one entry for each key.
pub fn equal_keys_are_one_key()
    ensures { (a b : Key) → IsTrue (⟦<Key as PartialEq>⟧.eq a b) ↔ (a ≡ b) }
{}

/// The decimal text of an integer is the key of that integer.
pub fn decimal_text_is_int_key()
    ensures { (z : ℤ) → FitsSigned w64 z → key_of_text (signed_decimal z) ≡ Key.Int z }
{}

/// The key that a value stands for: the decimal text of an integer is that integer, `true` and `false` are 1 and 0,
/// and null is the empty text.
pub fn key_of(v: Scalar) -> Key
    ensures { result ≡ key_of_scalar v }
{
    match v {
        Scalar::Null => Key::Str(Text::empty()),
        Scalar::Bool(b) => Key::Int(i64::from(b)),
        Scalar::Int(i) => Key::Int(i),
        Scalar::Str(text) => key_of_text(text),
    }
}

fn key_of_text(text: Text) -> Key
    ensures { result ≡ key_of_text text }
{
    match written_int(text.bytes()) {
        Some(i) if is_decimal_text(i, text.bytes()) => Key::Int(i),
        _ => Key::Str(text),
    }
}

// `bytes` are the decimal text of `i`.
fn is_decimal_text(i: i64, bytes: &[u8]) -> bool
    ensures { result ≡ pointwise nat_eq bytes.now (signed_decimal i) }
{
    let mut buffer = Buffer::new();
    bytes == buffer.format(i).as_bytes()
}
