// The table of powers: how tightly operators bind.

ghost use Rattle.std.specs.Prelude.{◌≡◌};
ghost use Rattle.php_ast.specs.Power.{assign_row, binary_row, choice_row, instance_of_row, prefix_power, yield_power};

use crate::operator::{Binary, Prefix};

/// How operators of one power stand side by side.
#[derive(Clone, Copy, Debug, PartialEq, Eq)]
pub enum Grouping {
    /// `a - b - c` is `(a - b) - c`.
    ToLeft,
    /// `a ?? b ?? c` is `a ?? (b ?? c)`.
    ToRight,
    /// `a < b < c` is no expression.
    Ungrouped,
}

/// A row of the table. A higher power binds tighter.
#[derive(Clone, Copy, Debug, PartialEq, Eq)]
pub struct Row {
    pub power: u8,
    pub grouping: Grouping,
}

/// The row of an operator between two operands.
pub fn row_of(op: Binary) -> Row
    ensures { result ≡ binary_row op }
{
    match op {
        Binary::Power => to_right(40),
        Binary::Times | Binary::Divided | Binary::Remainder => to_left(32),
        Binary::Plus | Binary::Minus | Binary::Concatenated => to_left(30),
        Binary::ShiftedLeft | Binary::ShiftedRight => to_left(28),
        Binary::Less | Binary::LessEqual | Binary::Greater | Binary::GreaterEqual => ungrouped(26),
        Binary::Equal
        | Binary::NotEqual
        | Binary::LessGreater
        | Binary::Identical
        | Binary::NotIdentical
        | Binary::Compared => ungrouped(24),
        Binary::BitAnd => to_left(22),
        Binary::BitXor => to_left(20),
        Binary::BitOr => to_left(18),
        Binary::LogicalAnd => to_left(16),
        Binary::LogicalOr => to_left(14),
        Binary::Coalesced => to_right(12),
        Binary::WordAnd => to_left(6),
        Binary::WordXor => to_left(4),
        Binary::WordOr => to_left(2),
    }
}

/// The row of `? :` and `?:`.
pub fn row_of_choice() -> Row
    ensures { result ≡ choice_row }
{
    to_left(10)
}

/// The row of `instanceof`.
pub fn row_of_instance_of() -> Row
    ensures { result ≡ instance_of_row }
{
    ungrouped(36)
}

/// The row of `=` and the operators with `=`.
pub fn row_of_assignment() -> Row
    ensures { result ≡ assign_row }
{
    to_right(8)
}

/// The power of `yield` with a value.
pub fn power_of_yield() -> u8
    ensures { result ≡ yield_power }
{
    7
}

/// The power of a prefix operator.
pub fn prefix_power_of(op: Prefix) -> u8
    ensures { result ≡ prefix_power op }
{
    match op {
        Prefix::Clone => 42,
        Prefix::Increment
        | Prefix::Decrement
        | Prefix::BitNot
        | Prefix::Silence
        | Prefix::ToInt
        | Prefix::ToBool
        | Prefix::ToText
        | Prefix::ToArray
        | Prefix::Plus
        | Prefix::Minus => 38,
        Prefix::Not => 34,
        Prefix::Print | Prefix::YieldFrom => 7,
    }
}

fn to_left(power: u8) -> Row
    ensures { result ≡ record { power = power; grouping = Grouping.ToLeft } }
{
    Row {
        power,
        grouping: Grouping::ToLeft,
    }
}

fn to_right(power: u8) -> Row
    ensures { result ≡ record { power = power; grouping = Grouping.ToRight } }
{
    Row {
        power,
        grouping: Grouping::ToRight,
    }
}

fn ungrouped(power: u8) -> Row
    ensures { result ≡ record { power = power; grouping = Grouping.Ungrouped } }
{
    Row {
        power,
        grouping: Grouping::Ungrouped,
    }
}
