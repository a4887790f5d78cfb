// A call that hasn't ended.

use crate::completion::Completion;
use php_memdef::Block;

/// How far the completion that is under way has come. It is `Going` where none is.
#[derive(Clone, Copy, Debug, Eq, PartialEq)]
pub enum Way {
    /// It looks for what serves it.
    Going,
    /// It has come to what serves it, whose code looks at it now.
    Landed,
    /// Nothing in the frame serves it, and the frame ends.
    Ending,
}

/// A call that hasn't ended, or the script's own part.
#[derive(Clone, Copy, Debug, Eq, PartialEq)]
pub struct Frame {
    /// The function, by its number. The script's is 0.
    pub function: u32,
    /// The place in the function's code that comes next.
    pub at: usize,
    /// The line of the statement that is run.
    pub line: u32,
    pub block: Block,
    /// The class that declares the function, by its number.
    pub class: Option<u32>,
    /// The class through which it was called.
    pub called: Option<u32>,
    /// With how many arguments it is being entered. `None` from its first tick on.
    pub given: Option<u32>,
    /// The completion that is under way.
    pub pending: Completion,
    pub way: Way,
}
