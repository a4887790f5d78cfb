// Why bytes are not read as a legal script.

use php_lex::LexFail;
use php_names::NameFail;
use php_reader::ParseFail;

/// Why bytes are not read as a legal script: the first of these causes that is there. None of the three is want of memory.
#[derive(Clone, Copy, Debug, PartialEq, Eq)]
pub enum ReadFail {
    /// They have no tokens: the first fault of the lexer.
    Lex(LexFail),
    /// The tokens spell no script, or one that is nested too deep: the first token at which that shows.
    Parse(ParseFail),
    /// The script isn't legal: its first fault.
    Name(NameFail),
    /// Memory could not be had. No other cause gives this answer.
    NoMemory,
}
