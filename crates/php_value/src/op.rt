// The binary operators that give a value.

/// A binary operator: `+ - * ** / % << >> & | ^ .`
#[derive(Clone, Copy, Debug, Eq, PartialEq)]
pub enum Op {
    Add,
    Sub,
    Mul,
    Pow,
    Div,
    Mod,
    Shl,
    Shr,
    And,
    Or,
    Xor,
    Concat,
}
