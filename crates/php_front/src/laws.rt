// Laws of what is read. Each is the contract of a function that does nothing: it says what holds of the definitions, for all
// bytes.

ghost use Rattle.std.specs.Prelude.{◌≡◌, ℕ, List};
ghost use Rattle.php_token.specs.Token.{Token};
ghost use Rattle.php_ast.specs.expression.View.{Note};
ghost use Rattle.php_ast.specs.declaration.Tree.{Script};
ghost use Rattle.php_front.specs.declared.fail.ReadFail.{ReadFail};
ghost use Rattle.php_front.specs.Read.{IsRefused, IsScript};

/// Bytes are at most one legal script, or are refused for at most one cause, and never both.
pub fn one_reading()
    ensures scripts { (bytes : List ℕ) (found others : List Token) (script other : Script Note) →
        IsScript bytes found script → IsScript bytes others other → (found ≡ others) × (script ≡ other) }
    ensures causes { (bytes : List ℕ) (cause other : ReadFail) → IsRefused bytes cause → IsRefused bytes other → cause ≡ other }
    ensures apart { (bytes : List ℕ) (found : List Token) (script : Script Note) (cause : ReadFail) →
        IsScript bytes found script → IsRefused bytes cause → ⊥ }
{}
