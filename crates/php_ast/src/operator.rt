// Operators, one variant a token.

/// An operator between two operands.
#[derive(Clone, Copy, Debug, PartialEq, Eq)]
pub enum Binary {
    /// `**`
    Power,
    /// `*`
    Times,
    /// `/`
    Divided,
    /// `%`
    Remainder,
    /// `+`
    Plus,
    /// `-`
    Minus,
    /// `.`
    Concatenated,
    /// `<<`
    ShiftedLeft,
    /// `>>`
    ShiftedRight,
    /// `<`
    Less,
    /// `<=`
    LessEqual,
    /// `>`
    Greater,
    /// `>=`
    GreaterEqual,
    /// `==`
    Equal,
    /// `!=`
    NotEqual,
    /// `<>`, which means the same as `!=`
    LessGreater,
    /// `===`
    Identical,
    /// `!==`
    NotIdentical,
    /// `<=>`
    Compared,
    /// `&`
    BitAnd,
    /// `^`
    BitXor,
    /// `|`
    BitOr,
    /// `&&`
    LogicalAnd,
    /// `||`
    LogicalOr,
    /// `??`
    Coalesced,
    /// `and`
    WordAnd,
    /// `xor`
    WordXor,
    /// `or`
    WordOr,
}

/// An operator before its operand.
#[derive(Clone, Copy, Debug, PartialEq, Eq)]
pub enum Prefix {
    /// `clone`
    Clone,
    /// `++`
    Increment,
    /// `--`
    Decrement,
    /// `~`
    BitNot,
    /// `@`
    Silence,
    /// `(int)`
    ToInt,
    /// `(bool)`
    ToBool,
    /// `(string)`
    ToText,
    /// `(array)`
    ToArray,
    /// `+`
    Plus,
    /// `-`
    Minus,
    /// `!`
    Not,
    /// `print`
    Print,
    /// `yield from`
    YieldFrom,
}

/// An operator behind an operand that is counted up or down.
#[derive(Clone, Copy, Debug, PartialEq, Eq)]
pub enum Count {
    /// `++`
    Up,
    /// `--`
    Down,
}

/// An operator that gives its left side a value.
#[derive(Clone, Copy, Debug, PartialEq, Eq)]
pub enum Assign {
    /// `=`
    Plain,
    /// `**=`
    Power,
    /// `*=`
    Times,
    /// `/=`
    Divided,
    /// `%=`
    Remainder,
    /// `+=`
    Plus,
    /// `-=`
    Minus,
    /// `.=`
    Concatenated,
    /// `<<=`
    ShiftedLeft,
    /// `>>=`
    ShiftedRight,
    /// `&=`
    BitAnd,
    /// `^=`
    BitXor,
    /// `|=`
    BitOr,
}

/// A constant whose value depends on where it stands.
#[derive(Clone, Copy, Debug, PartialEq, Eq)]
pub enum Magic {
    /// `__LINE__`
    Line,
    /// `__CLASS__`
    Class,
    /// `__FUNCTION__`
    Function,
    /// `__METHOD__`
    Method,
}

/// How an array or a list is written.
#[derive(Clone, Copy, Debug, PartialEq, Eq)]
pub enum ArrayForm {
    /// `[..]`
    Brackets,
    /// `array(..)`
    Array,
    /// `list(..)`
    List,
}
