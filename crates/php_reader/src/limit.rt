// The numbers of the grammar that no table of operators holds.

/// How many constructs may stand in one another.
pub const NESTING_LIMIT: usize = 128;

/// The least power of an operator.
pub const LEAST_POWER: u8 = 1;

/// What an expression is open to that may stand wherever an operand may, and that no operator goes on with: every
/// operator has less power.
pub const FREE: u8 = 50;

/// What an operand is open to: whatever may stand behind one.
pub const TOP: u8 = 200;

/// What `exit` without parentheses is open to.
pub const OPEN_EXIT: u8 = 105;

/// What `new` and its class are open to.
pub const OPEN_NEW: u8 = 80;

/// What a `yield` alone is open to: no operator stands behind it.
pub const OPEN_YIELD: u8 = 1;

/// What an operand with `++` or `--` behind it is open to.
pub const OPEN_COUNT: u8 = 50;

/// How tightly `[`, `->` and `::` draw what stands before them.
pub const SELECT_STRENGTH: u8 = 100;

/// How tightly `(` draws what stands before it.
pub const CALL_STRENGTH: u8 = 110;
