// The roles of a token: what it begins where an expression is due, and what it does behind one.

ghost use Rattle.std.specs.Prelude.{◌≡◌, ℕ, ℤ, List, true, false};
ghost use Rattle.php_ast.specs.Symbol.{symbol_of};
ghost use Rattle.php_ast.specs.Symbol as sort;
ghost use Rattle.php_grammar.specs.expression.Role.{beginning, beginning_keyword, beginning_punct, beginning_cast, continuation, continuation_keyword, continuation_punct, item_mark, draw_strength, draws, at_leaf};
ghost use Rattle.php_grammar.specs.expression.Role as role;
ghost use Rattle.php_ast.specs.expression.Tree as tree;
ghost use Rattle.php_reader.specs.RoleView.{start_view, leaf_view, next_view, infix_view, tail_view, mark_view, class_kind_view, mold_view};
ghost use Rattle.php_reader.specs.Seen.{named_class, mold};
ghost use Rattle.php_reader.specs.declared.role.Start.TheVariants.{Nothing};

use crate::limit::{CALL_STRENGTH, SELECT_STRENGTH};
use php_ast::{
    ArrayForm, Assign, Binary, Count, Magic, Prefix, row_of, row_of_choice, row_of_instance_of,
};
use php_grammar::Closer;
use php_lex::{Cast, Keyword, Punct, TokenKind};

/// An operand of one token.
#[derive(Clone, Copy)]
pub enum LeafKind {
    Variable,
    Int(i64),
    Str,
    Name,
    Magic(Magic),
}

/// What an operand begins with.
#[derive(Clone, Copy)]
pub enum Opening {
    Leaf(LeafKind),
    Static,
    Quote,
    Exit,
    New,
    Group,
    Empty,
    Array(ArrayForm),
    IsSet,
}

/// What a token begins where an expression is due.
#[derive(Clone, Copy)]
pub enum Start {
    Operand(Opening),
    Prefix(Prefix),
    Yield,
    Nothing,
}

/// What a token is where an item of a list is due, other than the beginning of one.
#[derive(Clone, Copy)]
pub enum Mark {
    /// `&`
    Reference,
    /// `...`
    Spread,
    /// A token that ends what stands before it.
    Ends(Closer),
    /// None of these. It may begin an expression.
    Begins,
}

/// What a token is where an expression is due, or a mark before it or in its place. A mark begins nothing.
#[derive(Clone, Copy)]
pub struct Due {
    pub start: Start,
    pub mark: Mark,
}

/// An operator behind its left side.
#[derive(Clone, Copy)]
pub enum Infix {
    /// An operator with a right side.
    Binary(Binary),
    /// `instanceof`
    InstanceOf,
    /// `?`
    Choice,
}

/// What a suffix begins with.
#[derive(Clone, Copy)]
pub enum Tail {
    /// `(`
    Call,
    /// `[`
    Index,
    /// `->`
    Property,
    /// `::`
    Member,
}

/// What a token does behind an expression.
#[derive(Clone, Copy)]
pub enum Next {
    Infix(Infix),
    /// An operator of assignment.
    Assign(Assign),
    /// `++` or `--`
    Count(Count),
    Suffix(Tail),
    Closes(Closer),
    Neither,
}

/// What stands behind `new`.
#[derive(Clone, Copy)]
pub enum ClassKind {
    Name,
    Static,
    Variable,
}

/// What stands between the quotes of a text with parts.
#[derive(Clone, Copy)]
pub enum Mold {
    Bytes,
    /// The mark before a part.
    Opened,
    /// The closing quote.
    Over,
    Other,
}

fn leaf(kind: LeafKind) -> Start
    ensures { (text : List ℕ) → start_view result text ≡ at_leaf (leaf_view kind text) }
{
    Start::Operand(Opening::Leaf(kind))
}

fn magic(constant: Magic) -> Start
    ensures { (text : List ℕ) → start_view result text ≡ at_leaf (tree.magic constant) }
{
    leaf(LeafKind::Magic(constant))
}

fn start_of_keyword(keyword: Keyword) -> Start
    ensures { (text : List ℕ) → beginning_keyword keyword ≡ start_view result text }
{
    match keyword {
        Keyword::Array => Start::Operand(Opening::Array(ArrayForm::Array)),
        Keyword::List => Start::Operand(Opening::Array(ArrayForm::List)),
        Keyword::IsSet => Start::Operand(Opening::IsSet),
        Keyword::Empty => Start::Operand(Opening::Empty),
        Keyword::Exit => Start::Operand(Opening::Exit),
        Keyword::New => Start::Operand(Opening::New),
        Keyword::Static => Start::Operand(Opening::Static),
        Keyword::Yield => Start::Yield,
        Keyword::Clone => Start::Prefix(Prefix::Clone),
        Keyword::Print => Start::Prefix(Prefix::Print),
        Keyword::YieldFrom => Start::Prefix(Prefix::YieldFrom),
        Keyword::LineNumber => magic(Magic::Line),
        Keyword::ClassName => magic(Magic::Class),
        Keyword::FunctionName => magic(Magic::Function),
        Keyword::MethodName => magic(Magic::Method),
        _ => Start::Nothing,
    }
}

fn start_of_punct(punct: Punct) -> Start
    ensures { (text : List ℕ) → beginning_punct punct ≡ start_view result text }
{
    match punct {
        Punct::LeftParen => Start::Operand(Opening::Group),
        Punct::LeftBracket => Start::Operand(Opening::Array(ArrayForm::Brackets)),
        Punct::PlusPlus => Start::Prefix(Prefix::Increment),
        Punct::MinusMinus => Start::Prefix(Prefix::Decrement),
        Punct::Tilde => Start::Prefix(Prefix::BitNot),
        Punct::At => Start::Prefix(Prefix::Silence),
        Punct::Plus => Start::Prefix(Prefix::Plus),
        Punct::Minus => Start::Prefix(Prefix::Minus),
        Punct::Bang => Start::Prefix(Prefix::Not),
        _ => Start::Nothing,
    }
}

fn start_of_cast(cast: Cast) -> Start
    ensures { (text : List ℕ) → beginning_cast cast ≡ start_view result text }
{
    match cast {
        Cast::Int => Start::Prefix(Prefix::ToInt),
        Cast::Bool => Start::Prefix(Prefix::ToBool),
        Cast::Str => Start::Prefix(Prefix::ToText),
        Cast::Arr => Start::Prefix(Prefix::ToArray),
        Cast::Other => Start::Nothing,
    }
}

/// Of a token of a kind, with its value where it is an integer, where an expression is due.
pub fn start_of(kind: TokenKind, value: i64) -> Start
    ensures { (text : List ℕ) → beginning (symbol_of kind text value) ≡ start_view result text }
{
    match kind {
        TokenKind::Variable => leaf(LeafKind::Variable),
        TokenKind::Int => leaf(LeafKind::Int(value)),
        TokenKind::Str => leaf(LeafKind::Str),
        TokenKind::Name => leaf(LeafKind::Name),
        TokenKind::Quote => Start::Operand(Opening::Quote),
        TokenKind::Keyword(keyword) => start_of_keyword(keyword),
        TokenKind::Punct(punct) => start_of_punct(punct),
        TokenKind::Cast(cast) => start_of_cast(cast),
        _ => Start::Nothing,
    }
}

fn marked(mark: Mark) -> Due
    ensures starts { result.start ≡ Nothing }
    ensures marks { result.mark ≡ mark }
{
    Due {
        start: Start::Nothing,
        mark,
    }
}

fn due_of_punct(punct: Punct) -> Due
    ensures starts { (text : List ℕ) → beginning_punct punct ≡ start_view result.start text }
    ensures marks { item_mark (sort.punct punct) ≡ mark_view result.mark }
{
    match punct {
        Punct::Ampersand => marked(Mark::Reference),
        Punct::Ellipsis => marked(Mark::Spread),
        Punct::RightParen => marked(Mark::Ends(Closer::Paren)),
        Punct::RightBracket => marked(Mark::Ends(Closer::Bracket)),
        Punct::RightBrace => marked(Mark::Ends(Closer::Brace)),
        Punct::Comma => marked(Mark::Ends(Closer::Comma)),
        Punct::DoubleArrow => marked(Mark::Ends(Closer::DoubleArrow)),
        Punct::Colon => marked(Mark::Ends(Closer::Colon)),
        Punct::Semicolon => marked(Mark::Ends(Closer::Semicolon)),
        _ => Due {
            start: start_of_punct(punct),
            mark: Mark::Begins,
        },
    }
}

/// Of a token of a kind, with its value where it is an integer, where an expression or a mark is due.
pub fn due_of(kind: TokenKind, value: i64) -> Due
    ensures starts { (text : List ℕ) → beginning (symbol_of kind text value) ≡ start_view result.start text }
    ensures marks { (text : List ℕ) (other : ℤ) → item_mark (symbol_of kind text other) ≡ mark_view result.mark }
{
    match kind {
        TokenKind::Punct(punct) => due_of_punct(punct),
        TokenKind::EndPart => marked(Mark::Ends(Closer::EndPart)),
        _ => Due {
            start: start_of(kind, value),
            mark: Mark::Begins,
        },
    }
}

fn binary(op: Binary) -> Next
    ensures { next_view result ≡ draws (role.by_binary op) }
{
    Next::Infix(Infix::Binary(op))
}

fn next_of_keyword(keyword: Keyword) -> Next
    ensures { continuation_keyword keyword ≡ next_view result }
{
    match keyword {
        Keyword::InstanceOf => Next::Infix(Infix::InstanceOf),
        Keyword::And => binary(Binary::WordAnd),
        Keyword::Xor => binary(Binary::WordXor),
        Keyword::Or => binary(Binary::WordOr),
        _ => Next::Neither,
    }
}

fn next_of_punct(punct: Punct) -> Next
    ensures { continuation_punct punct ≡ next_view result }
{
    match punct {
        Punct::LeftBracket => Next::Suffix(Tail::Index),
        Punct::RightBracket => Next::Closes(Closer::Bracket),
        Punct::LeftParen => Next::Suffix(Tail::Call),
        Punct::RightParen => Next::Closes(Closer::Paren),
        Punct::RightBrace => Next::Closes(Closer::Brace),
        Punct::Dot => binary(Binary::Concatenated),
        Punct::Arrow => Next::Suffix(Tail::Property),
        Punct::PlusPlus => Next::Count(Count::Up),
        Punct::MinusMinus => Next::Count(Count::Down),
        Punct::StarStar => binary(Binary::Power),
        Punct::Star => binary(Binary::Times),
        Punct::Plus => binary(Binary::Plus),
        Punct::Minus => binary(Binary::Minus),
        Punct::Slash => binary(Binary::Divided),
        Punct::Percent => binary(Binary::Remainder),
        Punct::ShiftLeft => binary(Binary::ShiftedLeft),
        Punct::ShiftRight => binary(Binary::ShiftedRight),
        Punct::Less => binary(Binary::Less),
        Punct::Greater => binary(Binary::Greater),
        Punct::LessEqual => binary(Binary::LessEqual),
        Punct::GreaterEqual => binary(Binary::GreaterEqual),
        Punct::EqualEqual => binary(Binary::Equal),
        Punct::Identical => binary(Binary::Identical),
        Punct::NotEqual => binary(Binary::NotEqual),
        Punct::NotIdentical => binary(Binary::NotIdentical),
        Punct::LessGreater => binary(Binary::LessGreater),
        Punct::Spaceship => binary(Binary::Compared),
        Punct::Caret => binary(Binary::BitXor),
        Punct::Bar => binary(Binary::BitOr),
        Punct::Ampersand => binary(Binary::BitAnd),
        Punct::AndAnd => binary(Binary::LogicalAnd),
        Punct::BarBar => binary(Binary::LogicalOr),
        Punct::Question => Next::Infix(Infix::Choice),
        Punct::Colon => Next::Closes(Closer::Colon),
        Punct::Semicolon => Next::Closes(Closer::Semicolon),
        Punct::Comma => Next::Closes(Closer::Comma),
        Punct::QuestionQuestion => binary(Binary::Coalesced),
        Punct::DoubleArrow => Next::Closes(Closer::DoubleArrow),
        Punct::DoubleColon => Next::Suffix(Tail::Member),
        Punct::Assign => Next::Assign(Assign::Plain),
        Punct::PowerAssign => Next::Assign(Assign::Power),
        Punct::StarAssign => Next::Assign(Assign::Times),
        Punct::SlashAssign => Next::Assign(Assign::Divided),
        Punct::PercentAssign => Next::Assign(Assign::Remainder),
        Punct::PlusAssign => Next::Assign(Assign::Plus),
        Punct::MinusAssign => Next::Assign(Assign::Minus),
        Punct::DotAssign => Next::Assign(Assign::Concatenated),
        Punct::ShiftLeftAssign => Next::Assign(Assign::ShiftedLeft),
        Punct::ShiftRightAssign => Next::Assign(Assign::ShiftedRight),
        Punct::AmpersandAssign => Next::Assign(Assign::BitAnd),
        Punct::CaretAssign => Next::Assign(Assign::BitXor),
        Punct::BarAssign => Next::Assign(Assign::BitOr),
        _ => Next::Neither,
    }
}

/// Of a token of a kind, behind an expression.
pub fn next_of(kind: TokenKind) -> Next
    ensures { (text : List ℕ) (value : ℤ) → continuation (symbol_of kind text value) ≡ next_view result }
{
    match kind {
        TokenKind::Keyword(keyword) => next_of_keyword(keyword),
        TokenKind::Punct(punct) => next_of_punct(punct),
        TokenKind::EndPart => Next::Closes(Closer::EndPart),
        _ => Next::Neither,
    }
}

/// How tightly an operator draws what stands before it.
pub fn infix_strength(op: Infix) -> u8
    ensures { result ≡ draw_strength (infix_view op) }
{
    match op {
        Infix::Binary(binary) => row_of(binary).power,
        Infix::InstanceOf => row_of_instance_of().power,
        Infix::Choice => row_of_choice().power,
    }
}

/// How tightly a suffix draws what stands before it.
pub fn tail_strength(tail: Tail) -> u8
    ensures { result ≡ draw_strength (tail_view tail) }
{
    match tail {
        Tail::Index | Tail::Property | Tail::Member => SELECT_STRENGTH,
        Tail::Call => CALL_STRENGTH,
    }
}

/// What a token of a kind begins behind `new`.
pub fn class_kind(kind: TokenKind) -> Option<ClassKind>
    ensures { (text : List ℕ) (value : ℤ) → named_class (symbol_of kind text value) ≡ class_kind_view result text }
{
    match kind {
        TokenKind::Name => Some(ClassKind::Name),
        TokenKind::Variable => Some(ClassKind::Variable),
        TokenKind::Keyword(Keyword::Static) => Some(ClassKind::Static),
        _ => None,
    }
}

/// What a token of a kind is between the quotes of a text with parts.
pub fn mold_of(kind: TokenKind) -> Mold
    ensures { (text : List ℕ) (value : ℤ) → mold (symbol_of kind text value) ≡ mold_view result text }
{
    match kind {
        TokenKind::Piece => Mold::Bytes,
        TokenKind::Part => Mold::Opened,
        TokenKind::Unquote => Mold::Over,
        _ => Mold::Other,
    }
}
