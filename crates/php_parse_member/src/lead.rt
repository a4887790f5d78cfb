// What a token is where a member is due, and in the rules of a `use`.

ghost use Rattle.std.specs.Prelude.{◌≡◌, ℕ, ℤ, List};
ghost use Rattle.php_ast.specs.Symbol.{symbol_of};
ghost use Rattle.php_grammar.specs.declaration.MemberMachine.{member_keyword, member_role, rule_role, visibility_of, visibility_of_keyword};
ghost use Rattle.php_parse_member.specs.LeadView.{lead_view, verb_view};

use php_ast::{ModifierWord, Visibility};
use php_lex::{Keyword, Punct, TokenKind};

/// What a token is where a member is due, or what stands behind its modifiers.
#[derive(Clone, Copy)]
pub(crate) enum Lead {
    Modifier(ModifierWord),
    Function,
    Constants,
    Use,
    Variable,
    Other,
}

/// What a rule does with a method.
#[derive(Clone, Copy)]
pub(crate) enum Verb {
    As,
    InsteadOf,
    /// `::`, behind a class.
    Colons,
    Other,
}

fn lead_of_keyword(keyword: Keyword) -> Lead
    ensures { (text : List ℕ) → member_keyword keyword ≡ lead_view result text }
{
    match keyword {
        Keyword::Public => Lead::Modifier(ModifierWord::Public),
        Keyword::Protected => Lead::Modifier(ModifierWord::Protected),
        Keyword::Private => Lead::Modifier(ModifierWord::Private),
        Keyword::Static => Lead::Modifier(ModifierWord::Static),
        Keyword::Abstract => Lead::Modifier(ModifierWord::Abstract),
        Keyword::Final => Lead::Modifier(ModifierWord::Final),
        Keyword::Var => Lead::Modifier(ModifierWord::Var),
        Keyword::Function => Lead::Function,
        Keyword::Const => Lead::Constants,
        Keyword::Use => Lead::Use,
        _ => Lead::Other,
    }
}

/// Of a token of a kind, where a member is due.
pub(crate) fn lead_of(kind: TokenKind) -> Lead
    ensures { (text : List ℕ) (value : ℤ) → member_role (symbol_of kind text value) ≡ lead_view result text }
{
    match kind {
        TokenKind::Variable => Lead::Variable,
        TokenKind::Keyword(keyword) => lead_of_keyword(keyword),
        _ => Lead::Other,
    }
}

/// Of a token of a kind, behind the words of a rule.
pub(crate) fn verb_of(kind: TokenKind) -> Verb
    ensures { (text : List ℕ) (value : ℤ) → rule_role (symbol_of kind text value) ≡ verb_view result }
{
    match kind {
        TokenKind::Keyword(Keyword::As) => Verb::As,
        TokenKind::Keyword(Keyword::InsteadOf) => Verb::InsteadOf,
        TokenKind::Punct(Punct::DoubleColon) => Verb::Colons,
        _ => Verb::Other,
    }
}

fn visibility_of_keyword(keyword: Keyword) -> Option<Visibility>
    ensures { visibility_of_keyword keyword ≡ result }
{
    match keyword {
        Keyword::Public => Some(Visibility::Public),
        Keyword::Protected => Some(Visibility::Protected),
        Keyword::Private => Some(Visibility::Private),
        _ => None,
    }
}

/// The visibility that a token of a kind gives.
pub(crate) fn visibility_of(kind: TokenKind) -> Option<Visibility>
    ensures { (text : List ℕ) (value : ℤ) → visibility_of (symbol_of kind text value) ≡ result }
{
    match kind {
        TokenKind::Keyword(keyword) => visibility_of_keyword(keyword),
        _ => None,
    }
}
