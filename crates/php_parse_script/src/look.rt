// Looks at the token at a place.

ghost use Rattle.std.specs.Prelude.{◌≡◌, ◌≢◌, [], true, false};
ghost use Rattle.php_token.specs.Token.{token_at};
ghost use Rattle.php_ast.specs.Symbol.{symbol};
ghost use Rattle.php_grammar.specs.declaration.ScriptMachine.{at_class, by_comma, by_extends, by_implements, by_members};
ghost use Rattle.php_reader.specs.Seen.{Stands, rest};
ghost use Rattle.php_parse_script.specs.Look.{SeesClassWord, SeesHeading, SeesItem, SeesItemRole, SeesMark};
ghost use Rattle.php_parse_script.specs.RoleView.{kind_view, mark_view};

use crate::role::{HeadingMark, ItemKind, item_of, mark_of};
use php_ast::ClassModifier;
use php_lex::Tokens;

/// Whether there is a token at a place.
pub(crate) fn stands(tokens: &Tokens, at: usize) -> bool
    ensures yes { result ≡ true → Stands tokens.now at (symbol (token_at tokens.now at)) }
    ensures no { result ≡ false → rest tokens.now at ≡ [] }
{
    at < tokens.len()
}

/// What the token at a place begins at the outermost level.
pub(crate) fn item_at(tokens: &Tokens, at: usize) -> ItemKind
    ensures { SeesItem tokens.now at (kind_view result) }
{
    if !stands(tokens, at) {
        return ItemKind::Statement;
    }
    item_of(tokens.kind(at))
}

/// Whether `class` stands at a place.
pub(crate) fn sees_class(tokens: &Tokens, at: usize) -> bool
    ensures { SeesItemRole at_class tokens.now at result }
{
    match item_at(tokens, at) {
        ItemKind::Class => true,
        _ => false,
    }
}

/// The word before `class` at a place, if one stands there.
pub(crate) fn class_word_at(tokens: &Tokens, at: usize) -> Option<ClassModifier>
    ensures { SeesClassWord tokens.now at result }
{
    match item_at(tokens, at) {
        ItemKind::ClassWord(word) => Some(word),
        _ => None,
    }
}

/// What the token at a place is behind the name of a class or an interface.
fn mark_at(tokens: &Tokens, at: usize) -> HeadingMark
    ensures { SeesMark tokens.now at (mark_view result) }
{
    if !stands(tokens, at) {
        return HeadingMark::Other;
    }
    mark_of(tokens.kind(at))
}

/// Whether `extends` stands at a place.
pub(crate) fn sees_extends(tokens: &Tokens, at: usize) -> bool
    ensures { SeesHeading by_extends tokens.now at result }
{
    match mark_at(tokens, at) {
        HeadingMark::Extends => true,
        _ => false,
    }
}

/// Whether `implements` stands at a place.
pub(crate) fn sees_implements(tokens: &Tokens, at: usize) -> bool
    ensures { SeesHeading by_implements tokens.now at result }
{
    match mark_at(tokens, at) {
        HeadingMark::Implements => true,
        _ => false,
    }
}

/// Whether a comma stands at a place, behind a name.
pub(crate) fn sees_comma(tokens: &Tokens, at: usize) -> bool
    ensures { SeesHeading by_comma tokens.now at result }
{
    match mark_at(tokens, at) {
        HeadingMark::Comma => true,
        _ => false,
    }
}

/// Whether the `{` of members stands at a place.
pub(crate) fn sees_members(tokens: &Tokens, at: usize) -> bool
    ensures { SeesHeading by_members tokens.now at result }
{
    match mark_at(tokens, at) {
        HeadingMark::Members => true,
        _ => false,
    }
}
