// What the row of an operator says of its sides.

ghost use Rattle.std.specs.Prelude.{◌≡◌, ◌<◌};
ghost use Rattle.php_ast.specs.expression.Proper.{edge, free, right};

use php_ast::{Grouping, Row};

/// The least power of an operator in the right side of one with this row.
pub fn right_of(row: Row) -> u8
    requires { row.power < free }
    ensures { result ≡ right row }
{
    match row.grouping {
        Grouping::ToRight => row.power,
        Grouping::ToLeft | Grouping::Ungrouped => row.power + 1,
    }
}

/// What must be more than the power of an operator that follows one with this row.
pub fn edge_of(row: Row) -> u8
    requires { row.power < free }
    ensures { result ≡ edge row }
{
    match row.grouping {
        Grouping::ToLeft => row.power + 1,
        Grouping::ToRight | Grouping::Ungrouped => row.power,
    }
}
