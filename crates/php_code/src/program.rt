// Programs.

use crate::instr::Instr;
use php_actions::Facts;
use php_frames::Ranges;
use sqlite_items::Items;

/// The code of a function. A place in it is the number of an instruction, from 0; past the last one the
/// function is at its end.
#[derive(Drop)]
pub struct Function {
    pub code: Items<Instr>,
    /// Where completions go on.
    pub ranges: Ranges,
}

/// The code of a script. A function has one number among `functions` and among the functions of `facts`; the
/// script's own part is 0.
#[derive(Drop)]
pub struct Program {
    pub functions: Items<Function>,
    pub facts: Facts,
}
