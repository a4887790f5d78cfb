// The roles of a token among statements: what it begins where a statement is due, and what it does behind one.

ghost use Rattle.std.specs.Prelude.{◌≡◌, ℕ, ℤ, List};
ghost use Rattle.php_ast.specs.Symbol.{symbol_of};
ghost use Rattle.php_grammar.specs.statement.Role.{as_word, behind, behind_keyword, behind_punct, ending, is_bar, is_fixed, name_text, statement_beginning, statement_keyword, statement_punct, variable_text};
ghost use Rattle.php_parse_simple.specs.Answer.{text_if};
ghost use Rattle.php_parse_simple.specs.RoleView.{IsEnding, after_view, begun_view, ends_list, fixed_view, is_variable_symbol};

use php_lex::{Keyword, Punct, TokenKind};

/// A statement that leaves what is around it.
#[derive(Clone, Copy)]
pub enum JumpKind {
    Return,
    Break,
    Continue,
}

/// What a token begins where a statement is due.
#[derive(Clone, Copy)]
pub enum Begun {
    /// `{`
    Block,
    /// `;`
    Blank,
    /// Bytes outside the tags.
    Inline,
    Echo,
    Globals,
    Statics,
    Unset,
    Constants,
    Jump(JumpKind),
    Throw,
    If,
    While,
    Do,
    For,
    Foreach,
    Switch,
    Try,
    Declare,
    /// Anything else, which begins an expression or nothing.
    Expression,
}

/// What a token does behind a statement: it goes on with what is around it, or ends the list in which it stands.
#[derive(Clone, Copy, PartialEq, Eq)]
pub enum After {
    Else,
    ElseIf,
    While,
    Case,
    Default,
    /// `}`
    Brace,
    EndIf,
    EndWhile,
    EndFor,
    EndForeach,
    EndSwitch,
    Catch,
    Finally,
    Other,
}

/// A token that is due whatever else was read.
#[derive(Clone, Copy)]
pub enum Fixed {
    LeftParen,
    RightParen,
    LeftBrace,
    Colon,
    Semicolon,
    Assign,
}

fn begun_by_keyword(keyword: Keyword) -> Begun
    ensures { (text : List ℕ) → statement_keyword keyword ≡ begun_view result text }
{
    match keyword {
        Keyword::Echo => Begun::Echo,
        Keyword::Global => Begun::Globals,
        Keyword::Static => Begun::Statics,
        Keyword::Unset => Begun::Unset,
        Keyword::Const => Begun::Constants,
        Keyword::Return => Begun::Jump(JumpKind::Return),
        Keyword::Break => Begun::Jump(JumpKind::Break),
        Keyword::Continue => Begun::Jump(JumpKind::Continue),
        Keyword::Throw => Begun::Throw,
        Keyword::If => Begun::If,
        Keyword::While => Begun::While,
        Keyword::Do => Begun::Do,
        Keyword::For => Begun::For,
        Keyword::Foreach => Begun::Foreach,
        Keyword::Switch => Begun::Switch,
        Keyword::Try => Begun::Try,
        Keyword::Declare => Begun::Declare,
        _ => Begun::Expression,
    }
}

fn begun_by_punct(punct: Punct) -> Begun
    ensures { (text : List ℕ) → statement_punct punct ≡ begun_view result text }
{
    match punct {
        Punct::LeftBrace => Begun::Block,
        Punct::Semicolon => Begun::Blank,
        _ => Begun::Expression,
    }
}

/// Of a token of a kind, where a statement is due.
pub fn begun_by(kind: TokenKind) -> Begun
    ensures { (text : List ℕ) (value : ℤ) → statement_beginning (symbol_of kind text value) ≡ begun_view result text }
{
    match kind {
        TokenKind::Inline => Begun::Inline,
        TokenKind::Keyword(keyword) => begun_by_keyword(keyword),
        TokenKind::Punct(punct) => begun_by_punct(punct),
        _ => Begun::Expression,
    }
}

fn after_by_keyword(keyword: Keyword) -> After
    ensures { behind_keyword keyword ≡ after_view result }
{
    match keyword {
        Keyword::Else => After::Else,
        Keyword::ElseIf => After::ElseIf,
        Keyword::While => After::While,
        Keyword::Case => After::Case,
        Keyword::Default => After::Default,
        Keyword::EndIf => After::EndIf,
        Keyword::EndWhile => After::EndWhile,
        Keyword::EndFor => After::EndFor,
        Keyword::EndForeach => After::EndForeach,
        Keyword::EndSwitch => After::EndSwitch,
        Keyword::Catch => After::Catch,
        Keyword::Finally => After::Finally,
        _ => After::Other,
    }
}

fn after_by_punct(punct: Punct) -> After
    ensures { behind_punct punct ≡ after_view result }
{
    match punct {
        Punct::RightBrace => After::Brace,
        _ => After::Other,
    }
}

/// Of a token of a kind, behind a statement.
pub fn after_by(kind: TokenKind) -> After
    ensures { (text : List ℕ) (value : ℤ) → behind (symbol_of kind text value) ≡ after_view result }
{
    match kind {
        TokenKind::Keyword(keyword) => after_by_keyword(keyword),
        TokenKind::Punct(punct) => after_by_punct(punct),
        _ => After::Other,
    }
}

/// Whether it ends a list of statements.
pub fn ends_list(after: After) -> bool
    ensures { result ≡ ends_list (after_view after) }
{
    match after {
        After::While | After::Other => false,
        _ => true,
    }
}

/// Whether it is this token.
pub fn is_fixed(kind: TokenKind, fixed: Fixed) -> bool
    ensures { (text : List ℕ) (value : ℤ) → is_fixed (fixed_view fixed) (symbol_of kind text value) ≡ result }
{
    match fixed {
        Fixed::LeftParen => matches!(kind, TokenKind::Punct(Punct::LeftParen)),
        Fixed::RightParen => matches!(kind, TokenKind::Punct(Punct::RightParen)),
        Fixed::LeftBrace => matches!(kind, TokenKind::Punct(Punct::LeftBrace)),
        Fixed::Colon => matches!(kind, TokenKind::Punct(Punct::Colon)),
        Fixed::Semicolon => matches!(kind, TokenKind::Punct(Punct::Semicolon)),
        Fixed::Assign => matches!(kind, TokenKind::Punct(Punct::Assign)),
    }
}

/// Whether it is `as`.
pub fn is_as(kind: TokenKind) -> bool
    ensures { (text : List ℕ) (value : ℤ) → IsEnding (ending (symbol_of kind text value)) as_word result }
{
    matches!(kind, TokenKind::Keyword(Keyword::As))
}

/// Whether it is `|`.
pub fn is_bar(kind: TokenKind) -> bool
    ensures { (text : List ℕ) (value : ℤ) → is_bar (symbol_of kind text value) ≡ result }
{
    matches!(kind, TokenKind::Punct(Punct::Bar))
}

/// Whether it is a variable.
pub fn is_variable(kind: TokenKind) -> bool
    ensures named { (text : List ℕ) (value : ℤ) → variable_text (symbol_of kind text value) ≡ text_if result text }
    ensures is { (text : List ℕ) (value : ℤ) → is_variable_symbol (symbol_of kind text value) ≡ result }
{
    matches!(kind, TokenKind::Variable)
}

/// Whether it is a name.
pub fn is_name(kind: TokenKind) -> bool
    ensures { (text : List ℕ) (value : ℤ) → name_text (symbol_of kind text value) ≡ text_if result text }
{
    matches!(kind, TokenKind::Name)
}
