// What is asked of texts, outcomes and keys where they stand, so that no text gets a further owner.
ghost use Rattle.std.specs.Prelude.{◌≡◌};
ghost use Rattle.php_value.specs.Comparison.{is_same};
ghost use Rattle.php_value.specs.Conversion.{int_of_form};
ghost use Rattle.php_value.specs.Form.{form_of};
ghost use Rattle.php_entries.specs.Keys.{key_eq};

use php_value::{Fault, Key, Order, int_of_form, numeric_form};

// The number that a text is compared as.
pub fn number_of(text: &[u8]) -> Result<i64, Fault>
    ensures { result ≡ int_of_form (form_of text.now) }
{
    int_of_form(numeric_form(text))
}

pub fn is_same(order: Order) -> bool
    ensures { result ≡ is_same order }
{
    matches!(order, Order::Same)
}

pub fn is_same_key(a: &Key, b: &Key) -> bool
    ensures { result ≡ key_eq a.now b.now }
{
    match (a, b) {
        (Key::Int(i), Key::Int(j)) => i == j,
        (Key::Str(s), Key::Str(t)) => s.bytes() == t.bytes(),
        (Key::Int(_), Key::Str(_)) | (Key::Str(_), Key::Int(_)) => false,
    }
}
