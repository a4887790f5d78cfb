// Instructions.

use php_actions::Action;

/// An instruction of a function. A distance is the number of instructions that are passed over.
#[derive(Drop)]
pub enum Instr {
    /// An action, and on to the next instruction.
    Do(Action),
    /// [x] → []: on to the next instruction where x is a truth, else past so many.
    Unless(usize),
    /// Past so many of the next instructions.
    Go(usize),
    /// A tick of this line, and so many instructions back. There is no other way back, so that each turn of a
    /// loop takes a tick.
    TickBack(u32, usize),
}
