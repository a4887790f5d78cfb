// Actions that compute a value from others, which fall: of two the left one first.

use crate::relation::Relation;
use php_value::Op;

#[derive(Drop)]
pub enum OperatorAction {
    /// [x y] → [z]. Throws `UNSUPPORTED_OPERANDS`, `DIVISION_BY_ZERO`, `ARITHMETIC`; faults `Overflow`,
    /// `InexactQuotient`, `FloatNeeded`, `StringLimit`. The sum of two arrays is their union: copies of the
    /// entries of x, and behind them of those of y whose keys x lacks; fault `ArrayLimit`. Else an operand that is
    /// an array has the text `Array`, and no number.
    Operate(Op),
    /// [x y] → [what is asked of their order]: a bool, or an int for `<=>`. Throws `OBJECT_AGAINST_STRING`,
    /// `NESTING_TOO_DEEP`; fault `FloatNeeded`.
    Compare(Relation),
    /// [x y] → [whether they are identical, or whether they aren't]. Throws `NESTING_TOO_DEEP`.
    Identical { negated: bool },
    /// [x y] → [x, whether they are equal], and y falls: a value of a `case` against that of its `switch`. Throws and
    /// faults as `Compare`.
    TestCase,
    /// [x y] → [whether one alone is a truth]
    ExclusiveOr,
    /// [x] → [bool]
    ToBool,
    /// [x] → [bool]
    Not,
    /// [x] → [int]. Throws `UNSUPPORTED_OPERANDS`, of an object; fault `FloatNeeded`. An array is 1 where it has
    /// entries, else 0.
    ToInt,
    /// [x] → [text]
    ToText,
    /// [x] → [its number, with the other sign where that is said]. Throws `UNSUPPORTED_OPERANDS`; faults
    /// `Overflow`, `FloatNeeded`.
    Sign { negative: bool },
    /// [x] → [y], with all bits turned. Throws `UNSUPPORTED_OPERANDS`.
    Complement,
    /// [x] → [y], one more or one less. Throws `NOT_COUNTABLE`; faults `Overflow`, `FloatNeeded`.
    Count { up: bool },
    /// [x1 .. xn] → [their texts, joined]; the last one falls first. Fault `StringLimit`.
    Join(usize),
}
