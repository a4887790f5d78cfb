// Forms by themselves, whatever their parts are.

ghost use Rattle.std.specs.Prelude.{◌≡◌, is_some};
ghost use Rattle.php_ast.specs.expression.Tree.{by_value, int, leaf, magic};
ghost use Rattle.php_ast.specs.expression.View.{spot_view, view};
ghost use Rattle.php_memdef.specs.Deciders.{is_short};
ghost use Rattle.php_meaning.specs.Forms.{is_plain, variable_name};
ghost use Rattle.php_told.specs.First as spec;
ghost use Rattle.php_told.specs.Noted.{noted};

use php_ast::{Assign, Binary, Expr, Magic, Prefix, Spot};
use php_value::Text;

/// The most bytes of a text.
const TEXT_LIMIT: usize = 16_777_216;

pub(crate) fn is_short_text(text: &Text) -> bool
    ensures { result ≡ is_short text.now }
{
    text.bytes().len() <= TEXT_LIMIT
}

/// Of an integer: each one of the type is within its limits.
pub(crate) fn first_in_int(spot: Spot, number: i64) -> Option<Spot>
    ensures { noted result ≡ spec.first_in (leaf (spot_view spot) (int number)) }
{
    None
}

/// Of a constant whose value depends on where it stands: a line is within the limits of an integer.
pub(crate) fn first_in_magic(spot: Spot, word: Magic) -> Option<Spot>
    ensures { noted result ≡ spec.first_in (leaf (spot_view spot) (magic word)) }
{
    None
}

pub(crate) fn is_told_prefix(op: Prefix) -> bool
    ensures { result ≡ spec.is_told_prefix op }
{
    match op {
        Prefix::BitNot
        | Prefix::Silence
        | Prefix::ToInt
        | Prefix::ToBool
        | Prefix::ToText
        | Prefix::Plus
        | Prefix::Minus
        | Prefix::Not
        | Prefix::Print => true,
        Prefix::Clone
        | Prefix::Increment
        | Prefix::Decrement
        | Prefix::ToArray
        | Prefix::YieldFrom => false,
    }
}

pub(crate) fn is_told_operator(op: Binary) -> bool
    ensures { result ≡ spec.is_told_operator op }
{
    match op {
        Binary::Power
        | Binary::Times
        | Binary::Divided
        | Binary::Remainder
        | Binary::Plus
        | Binary::Minus
        | Binary::Concatenated
        | Binary::ShiftedLeft
        | Binary::ShiftedRight
        | Binary::Less
        | Binary::LessEqual
        | Binary::Greater
        | Binary::GreaterEqual
        | Binary::Equal
        | Binary::NotEqual
        | Binary::LessGreater
        | Binary::Identical
        | Binary::NotIdentical
        | Binary::Compared
        | Binary::BitAnd
        | Binary::BitXor
        | Binary::BitOr
        | Binary::WordXor => true,
        Binary::LogicalAnd
        | Binary::LogicalOr
        | Binary::Coalesced
        | Binary::WordAnd
        | Binary::WordOr => false,
    }
}

pub(crate) fn is_plain_assignment(op: Assign) -> bool
    ensures { result ≡ is_plain (by_value op) }
{
    match op {
        Assign::Plain => true,
        Assign::Power
        | Assign::Times
        | Assign::Divided
        | Assign::Remainder
        | Assign::Plus
        | Assign::Minus
        | Assign::Concatenated
        | Assign::ShiftedLeft
        | Assign::ShiftedRight
        | Assign::BitAnd
        | Assign::BitXor
        | Assign::BitOr => false,
    }
}

/// Whether an expression is a variable. A node with an empty list is the node inside it.
pub(crate) fn is_variable(e: &Expr) -> bool
    ensures { result ≡ is_some (variable_name (view e.now)) }
{
    match e {
        Expr::Variable(_) => true,
        Expr::Chain(inner, suffixes) => {
            if suffixes.as_slice().is_empty() {
                is_variable(inner.get())
            } else {
                false
            }
        }
        Expr::Run(inner, links) => {
            if links.as_slice().is_empty() {
                is_variable(inner.get())
            } else {
                false
            }
        }
        _ => false,
    }
}
