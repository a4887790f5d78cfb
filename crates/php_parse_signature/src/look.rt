// Looks at the token at a place for a part of a signature.

ghost use Rattle.std.specs.Prelude.{◌≡◌, ◌≢◌, [], true, false};
ghost use Rattle.php_ast.specs.Symbol.{symbol};
ghost use Rattle.php_token.specs.Token.{token_at};
ghost use Rattle.php_grammar.specs.declaration.SignatureMachine.{at_reference, at_variadic};
ghost use Rattle.php_grammar.specs.statement.Role.{is_assign};
ghost use Rattle.php_reader.specs.Seen.{Stands, Tests, rest};
ghost use Rattle.php_parse_signature.specs.PartView.{SeesPart, SeesRole, part_view};

use crate::part::{Part, part_of};
use php_lex::{Punct, TokenKind, Tokens};

/// Whether there is a token at a place.
fn stands(tokens: &Tokens, at: usize) -> bool
    ensures yes { result ≡ true → Stands tokens.now at (symbol (token_at tokens.now at)) }
    ensures no { result ≡ false → rest tokens.now at ≡ [] }
{
    at < tokens.len()
}

/// What part of a parameter or of a type the token at a place is.
pub(crate) fn part_at(tokens: &Tokens, at: usize) -> Part
    ensures { SeesPart tokens.now at (part_view result (token_at tokens.now at).text) }
{
    if !stands(tokens, at) {
        return Part::Other;
    }
    part_of(tokens.kind(at))
}

/// Whether `&` stands where a part of a parameter is due.
pub(crate) fn sees_reference(tokens: &Tokens, at: usize) -> bool
    ensures { SeesRole at_reference tokens.now at result }
{
    match part_at(tokens, at) {
        Part::Reference => true,
        _ => false,
    }
}

/// Whether `...` stands where a part of a parameter is due.
pub(crate) fn sees_variadic(tokens: &Tokens, at: usize) -> bool
    ensures { SeesRole at_variadic tokens.now at result }
{
    match part_at(tokens, at) {
        Part::Variadic => true,
        _ => false,
    }
}

/// Whether `=` stands at a place.
pub(crate) fn sees_assign(tokens: &Tokens, at: usize) -> bool
    ensures { Tests is_assign tokens.now at result }
{
    stands(tokens, at) && matches!(tokens.kind(at), TokenKind::Punct(Punct::Assign))
}
