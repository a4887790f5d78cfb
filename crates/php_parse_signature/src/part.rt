// What a token is where a part of a parameter or of a type is due.

ghost use Rattle.std.specs.Prelude.{◌≡◌, ℕ, ℤ, List};
ghost use Rattle.php_ast.specs.Symbol.{symbol_of};
ghost use Rattle.php_grammar.specs.declaration.SignatureMachine.{param_keyword, param_punct, param_role};
ghost use Rattle.php_parse_signature.specs.PartView.{part_view};

use php_lex::{Keyword, Punct, TokenKind};

/// What a type without its `?` begins with.
#[derive(Clone, Copy)]
pub(crate) enum BaseKind {
    Name,
    Array,
    Callable,
}

/// What a token is where a part of a parameter or of a type is due.
#[derive(Clone, Copy)]
pub(crate) enum Part {
    /// A type without its `?`.
    Base(BaseKind),
    Variable,
    /// `?`
    Question,
    /// `&`
    Reference,
    /// `...`
    Variadic,
    Other,
}

fn part_of_keyword(keyword: Keyword) -> Part
    ensures { (text : List ℕ) → param_keyword keyword ≡ part_view result text }
{
    match keyword {
        Keyword::Array => Part::Base(BaseKind::Array),
        Keyword::Callable => Part::Base(BaseKind::Callable),
        _ => Part::Other,
    }
}

fn part_of_punct(punct: Punct) -> Part
    ensures { (text : List ℕ) → param_punct punct ≡ part_view result text }
{
    match punct {
        Punct::Question => Part::Question,
        Punct::Ampersand => Part::Reference,
        Punct::Ellipsis => Part::Variadic,
        _ => Part::Other,
    }
}

/// Of a token of a kind.
pub(crate) fn part_of(kind: TokenKind) -> Part
    ensures { (text : List ℕ) (value : ℤ) → param_role (symbol_of kind text value) ≡ part_view result text }
{
    match kind {
        TokenKind::Name => Part::Base(BaseKind::Name),
        TokenKind::Variable => Part::Variable,
        TokenKind::Keyword(keyword) => part_of_keyword(keyword),
        TokenKind::Punct(punct) => part_of_punct(punct),
        _ => Part::Other,
    }
}
