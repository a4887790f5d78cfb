// Looks at the token at a place.

ghost use Rattle.std.specs.Prelude.{◌≡◌, true, false, []};
ghost use Rattle.php_ast.specs.Symbol.{symbol};
ghost use Rattle.php_token.specs.Token.{token_at};
ghost use Rattle.php_grammar.specs.statement.Role.{is_right_brace};
ghost use Rattle.php_reader.specs.Seen.{Stands, Tests, rest};
ghost use Rattle.php_parse_member.specs.LeadView.{SeesLead, SeesVerb, SeesVisibility, lead_view, verb_view};

use crate::lead::{Lead, Verb, lead_of, verb_of, visibility_of};
use php_ast::Visibility;
use php_lex::{Punct, TokenKind, Tokens};

/// Whether there is a token at a place.
fn stands(tokens: &Tokens, at: usize) -> bool
    ensures yes { result ≡ true → Stands tokens.now at (symbol (token_at tokens.now at)) }
    ensures no { result ≡ false → rest tokens.now at ≡ [] }
{
    at < tokens.len()
}

/// What the token at a place is where a member is due.
pub(crate) fn lead_at(tokens: &Tokens, at: usize) -> Lead
    ensures { SeesLead tokens.now at (lead_view result (token_at tokens.now at).text) }
{
    if !stands(tokens, at) {
        return Lead::Other;
    }
    lead_of(tokens.kind(at))
}

/// What the token at a place does behind the words of a rule.
pub(crate) fn verb_at(tokens: &Tokens, at: usize) -> Verb
    ensures { SeesVerb tokens.now at (verb_view result) }
{
    if !stands(tokens, at) {
        return Verb::Other;
    }
    verb_of(tokens.kind(at))
}

/// The visibility at a place, if one stands there.
pub(crate) fn visibility_at(tokens: &Tokens, at: usize) -> Option<Visibility>
    ensures { SeesVisibility tokens.now at result }
{
    if !stands(tokens, at) {
        return None;
    }
    visibility_of(tokens.kind(at))
}

/// Whether `}` stands at a place.
pub(crate) fn sees_right_brace(tokens: &Tokens, at: usize) -> bool
    ensures { Tests is_right_brace tokens.now at result }
{
    stands(tokens, at) && matches!(tokens.kind(at), TokenKind::Punct(Punct::RightBrace))
}
