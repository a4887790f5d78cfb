// The names that variables may have.

ghost use Rattle.std.specs.Prelude.{◌≡◌};
ghost use Rattle.php_ast.specs.expression.View.{spot_view};
ghost use Rattle.php_first_forms.specs.Forms.{is_allowed, unless};
ghost use Rattle.php_first_forms.specs.Noted.{noted};

use php_ast::{Name, Spot};

/// Whether a variable may have the name: it is none of `argv`, `argc` and `this`.
pub fn is_allowed_name(name: &[u8]) -> bool
    ensures { result ≡ is_allowed name.now }
{
    name != b"argv".as_slice() && name != b"argc".as_slice() && name != b"this".as_slice()
}

/// The spot of a variable that doesn't run.
pub(crate) fn left_in_name(name: &Name) -> Option<Spot>
    ensures { noted result ≡ unless (is_allowed name.now.text) (spot_view name.now.spot) }
{
    if is_allowed_name(name.text.bytes()) {
        None
    } else {
        Some(name.spot)
    }
}
