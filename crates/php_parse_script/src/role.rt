// What a token is at the outermost level of a script, and behind the name of a class or an interface.

ghost use Rattle.std.specs.Prelude.{◌≡◌, ℕ, ℤ, List};
ghost use Rattle.php_ast.specs.Symbol.{keyword, punct, symbol_of};
ghost use Rattle.php_grammar.specs.declaration.ScriptMachine.{heading_role, item_keyword, item_role};
ghost use Rattle.php_parse_script.specs.RoleView.{kind_view, mark_view};

use php_ast::ClassModifier;
use php_lex::{Keyword, Punct, TokenKind};

/// What a token begins at the outermost level.
#[derive(Clone, Copy)]
pub(crate) enum ItemKind {
    Function,
    Class,
    /// `abstract` or `final`
    ClassWord(ClassModifier),
    Interface,
    Trait,
    /// Anything else, which begins a statement or nothing.
    Statement,
}

/// What a token is behind the name of a class or an interface.
#[derive(Clone, Copy)]
pub(crate) enum HeadingMark {
    Extends,
    Implements,
    Comma,
    /// `{`
    Members,
    Other,
}

fn item_of_keyword(keyword: Keyword) -> ItemKind
    ensures { item_keyword keyword ≡ kind_view result }
{
    match keyword {
        Keyword::Function => ItemKind::Function,
        Keyword::Class => ItemKind::Class,
        Keyword::Abstract => ItemKind::ClassWord(ClassModifier::Abstract),
        Keyword::Final => ItemKind::ClassWord(ClassModifier::Final),
        Keyword::Interface => ItemKind::Interface,
        Keyword::Trait => ItemKind::Trait,
        _ => ItemKind::Statement,
    }
}

/// Of a token of a kind, at the outermost level.
pub(crate) fn item_of(kind: TokenKind) -> ItemKind
    ensures { (text : List ℕ) (value : ℤ) → item_role (symbol_of kind text value) ≡ kind_view result }
{
    match kind {
        TokenKind::Keyword(keyword) => item_of_keyword(keyword),
        _ => ItemKind::Statement,
    }
}

fn mark_of_keyword(word: Keyword) -> HeadingMark
    ensures { heading_role (keyword word) ≡ mark_view result }
{
    match word {
        Keyword::Extends => HeadingMark::Extends,
        Keyword::Implements => HeadingMark::Implements,
        _ => HeadingMark::Other,
    }
}

fn mark_of_punct(mark: Punct) -> HeadingMark
    ensures { heading_role (punct mark) ≡ mark_view result }
{
    match mark {
        Punct::Comma => HeadingMark::Comma,
        Punct::LeftBrace => HeadingMark::Members,
        _ => HeadingMark::Other,
    }
}

/// Of a token of a kind, behind the name of a class or an interface.
pub(crate) fn mark_of(kind: TokenKind) -> HeadingMark
    ensures { (text : List ℕ) (value : ℤ) → heading_role (symbol_of kind text value) ≡ mark_view result }
{
    match kind {
        TokenKind::Keyword(word) => mark_of_keyword(word),
        TokenKind::Punct(mark) => mark_of_punct(mark),
        _ => HeadingMark::Other,
    }
}
