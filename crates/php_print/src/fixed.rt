// Fixed tokens: those without a text or a value, and the token of each operator.

ghost use Rattle.std.specs.Prelude.{◌≡◌};
ghost use Rattle.php_ast.specs.Operators.{
  assign_symbol,
  binary_symbol,
  count_symbol,
  magic_symbol,
  prefix_symbol,
};
ghost use Rattle.php_print.specs.Print.{printed_view, fixed_view};

use crate::printed::Printed;
use php_ast::{Assign, Binary, Count, Magic, Prefix};
use php_token::{Cast, Keyword, Punct};

/// A fixed token: one without a text or a value.
#[derive(Clone, Copy, Debug)]
pub enum Fixed {
    Part,
    EndPart,
    Keyword(Keyword),
    Punct(Punct),
    Cast(Cast),
}

impl Fixed {
    /// The same as a printed token.
    pub fn printed(self) -> Printed
        ensures { printed_view result ≡ fixed_view self }
    {
        match self {
            Fixed::Part => Printed::Part,
            Fixed::EndPart => Printed::EndPart,
            Fixed::Keyword(word) => Printed::Keyword(word),
            Fixed::Punct(mark) => Printed::Punct(mark),
            Fixed::Cast(word) => Printed::Cast(word),
        }
    }
}

/// `&`
pub const AMPERSAND: Fixed = Fixed::Punct(Punct::Ampersand);

/// `->`
pub const ARROW: Fixed = Fixed::Punct(Punct::Arrow);

/// `=`
pub const ASSIGN: Fixed = Fixed::Punct(Punct::Assign);

/// `:`
pub const COLON: Fixed = Fixed::Punct(Punct::Colon);

/// `=>`
pub const DOUBLE_ARROW: Fixed = Fixed::Punct(Punct::DoubleArrow);

/// `::`
pub const DOUBLE_COLON: Fixed = Fixed::Punct(Punct::DoubleColon);

/// `else`
pub const ELSE: Fixed = Fixed::Keyword(Keyword::Else);

/// `exit`
pub const EXIT: Fixed = Fixed::Keyword(Keyword::Exit);

/// `instanceof`
pub const INSTANCE_OF: Fixed = Fixed::Keyword(Keyword::InstanceOf);

/// `(`
pub const LEFT: Fixed = Fixed::Punct(Punct::LeftParen);

/// `{`
pub const LEFT_BRACE: Fixed = Fixed::Punct(Punct::LeftBrace);

/// `[`
pub const LEFT_BRACKET: Fixed = Fixed::Punct(Punct::LeftBracket);

/// `?`
pub const QUESTION: Fixed = Fixed::Punct(Punct::Question);

/// `)`
pub const RIGHT: Fixed = Fixed::Punct(Punct::RightParen);

/// `}`
pub const RIGHT_BRACE: Fixed = Fixed::Punct(Punct::RightBrace);

/// `]`
pub const RIGHT_BRACKET: Fixed = Fixed::Punct(Punct::RightBracket);

/// `;`
pub const SEMICOLON: Fixed = Fixed::Punct(Punct::Semicolon);

/// `static`
pub const STATIC: Fixed = Fixed::Keyword(Keyword::Static);

/// `yield`
pub const YIELD: Fixed = Fixed::Keyword(Keyword::Yield);

/// The token of an operator between two operands.
pub(crate) fn binary_fixed(op: Binary) -> Fixed
    ensures { fixed_view result ≡ binary_symbol op }
{
    match op {
        Binary::Power => Fixed::Punct(Punct::StarStar),
        Binary::Times => Fixed::Punct(Punct::Star),
        Binary::Divided => Fixed::Punct(Punct::Slash),
        Binary::Remainder => Fixed::Punct(Punct::Percent),
        Binary::Plus => Fixed::Punct(Punct::Plus),
        Binary::Minus => Fixed::Punct(Punct::Minus),
        Binary::Concatenated => Fixed::Punct(Punct::Dot),
        Binary::ShiftedLeft => Fixed::Punct(Punct::ShiftLeft),
        Binary::ShiftedRight => Fixed::Punct(Punct::ShiftRight),
        Binary::Less => Fixed::Punct(Punct::Less),
        Binary::LessEqual => Fixed::Punct(Punct::LessEqual),
        Binary::Greater => Fixed::Punct(Punct::Greater),
        Binary::GreaterEqual => Fixed::Punct(Punct::GreaterEqual),
        Binary::Equal => Fixed::Punct(Punct::EqualEqual),
        Binary::NotEqual => Fixed::Punct(Punct::NotEqual),
        Binary::LessGreater => Fixed::Punct(Punct::LessGreater),
        Binary::Identical => Fixed::Punct(Punct::Identical),
        Binary::NotIdentical => Fixed::Punct(Punct::NotIdentical),
        Binary::Compared => Fixed::Punct(Punct::Spaceship),
        Binary::BitAnd => Fixed::Punct(Punct::Ampersand),
        Binary::BitXor => Fixed::Punct(Punct::Caret),
        Binary::BitOr => Fixed::Punct(Punct::Bar),
        Binary::LogicalAnd => Fixed::Punct(Punct::AndAnd),
        Binary::LogicalOr => Fixed::Punct(Punct::BarBar),
        Binary::Coalesced => Fixed::Punct(Punct::QuestionQuestion),
        Binary::WordAnd => Fixed::Keyword(Keyword::And),
        Binary::WordXor => Fixed::Keyword(Keyword::Xor),
        Binary::WordOr => Fixed::Keyword(Keyword::Or),
    }
}

/// The token of a prefix operator.
pub(crate) fn prefix_fixed(op: Prefix) -> Fixed
    ensures { fixed_view result ≡ prefix_symbol op }
{
    match op {
        Prefix::Clone => Fixed::Keyword(Keyword::Clone),
        Prefix::Increment => Fixed::Punct(Punct::PlusPlus),
        Prefix::Decrement => Fixed::Punct(Punct::MinusMinus),
        Prefix::BitNot => Fixed::Punct(Punct::Tilde),
        Prefix::Silence => Fixed::Punct(Punct::At),
        Prefix::ToInt => Fixed::Cast(Cast::Int),
        Prefix::ToBool => Fixed::Cast(Cast::Bool),
        Prefix::ToText => Fixed::Cast(Cast::Str),
        Prefix::ToArray => Fixed::Cast(Cast::Arr),
        Prefix::Plus => Fixed::Punct(Punct::Plus),
        Prefix::Minus => Fixed::Punct(Punct::Minus),
        Prefix::Not => Fixed::Punct(Punct::Bang),
        Prefix::Print => Fixed::Keyword(Keyword::Print),
        Prefix::YieldFrom => Fixed::Keyword(Keyword::YieldFrom),
    }
}

/// The token of `++` or `--` behind an operand.
pub(crate) fn count_fixed(count: Count) -> Fixed
    ensures { fixed_view result ≡ count_symbol count }
{
    match count {
        Count::Up => Fixed::Punct(Punct::PlusPlus),
        Count::Down => Fixed::Punct(Punct::MinusMinus),
    }
}

/// The token of an operator that gives its left side a value.
pub(crate) fn assign_fixed(op: Assign) -> Fixed
    ensures { fixed_view result ≡ assign_symbol op }
{
    match op {
        Assign::Plain => Fixed::Punct(Punct::Assign),
        Assign::Power => Fixed::Punct(Punct::PowerAssign),
        Assign::Times => Fixed::Punct(Punct::StarAssign),
        Assign::Divided => Fixed::Punct(Punct::SlashAssign),
        Assign::Remainder => Fixed::Punct(Punct::PercentAssign),
        Assign::Plus => Fixed::Punct(Punct::PlusAssign),
        Assign::Minus => Fixed::Punct(Punct::MinusAssign),
        Assign::Concatenated => Fixed::Punct(Punct::DotAssign),
        Assign::ShiftedLeft => Fixed::Punct(Punct::ShiftLeftAssign),
        Assign::ShiftedRight => Fixed::Punct(Punct::ShiftRightAssign),
        Assign::BitAnd => Fixed::Punct(Punct::AmpersandAssign),
        Assign::BitXor => Fixed::Punct(Punct::CaretAssign),
        Assign::BitOr => Fixed::Punct(Punct::BarAssign),
    }
}

/// The token of a constant whose value depends on where it stands.
pub(crate) fn magic_fixed(magic: Magic) -> Fixed
    ensures { fixed_view result ≡ magic_symbol magic }
{
    match magic {
        Magic::Line => Fixed::Keyword(Keyword::LineNumber),
        Magic::Class => Fixed::Keyword(Keyword::ClassName),
        Magic::Function => Fixed::Keyword(Keyword::FunctionName),
        Magic::Method => Fixed::Keyword(Keyword::MethodName),
    }
}
