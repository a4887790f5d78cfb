// The statement that begins at a place among the tokens of a script.

ghost use Rattle.std.specs.Prelude.{◌≡◌, ◌≤◌, true, length, IfOk, IfErr};
ghost use Rattle.php_parse_statement.specs.Exact as exact;
ghost use Rattle.php_flat.specs.Statements.{is_flat_statement};

use crate::statement::read_statement;
use php_ast::Stmt;
use php_lex::Tokens;
use php_reader::limit::NESTING_LIMIT;
use php_reader::{ParseFail, Reader, with_line};
use std::alloc::Global;

/// The statement that begins at the token `at`, and the place of the first token behind it.
///
/// Of the tokens from `at` on as many are read as begin a statement. Where these spell one, it is answered; else `Syntax`
/// with the place of the first token that was not read, and its line. A token behind them that no statement goes on with
/// is left to the caller; an `else` or `elseif` goes on with an `if` that can take it, and a `catch` or `finally` with a
/// `try` that has none. All expressions in it are flat. `depth` is how many constructs are open around `at`; the first
/// token inside more than 128 of them is `TooDeep`. Calls nest as constructs do, and no further. `NoMemory` comes for want
/// of memory.
pub fn parse_statement(
    alloc: Global,
    tokens: &Tokens,
    at: usize,
    depth: u32,
) -> Result<(Stmt, usize), ParseFail>
    requires within { at ≤ length tokens.now }
    requires shallow { depth ≤ 128 }
    ensures read { IfOk result (λ r. exact.IsRead depth tokens.now at r.0 r.1) }
    ensures flat { IfOk result (λ r. is_flat_statement r.0 ≡ true) }
    ensures refused { IfErr result (λ fail. exact.IsRefused depth tokens.now at fail) }
{
    let reader = Reader {
        alloc,
        tokens,
        room: NESTING_LIMIT + 1 - depth as usize,
    };
    match read_statement(&reader, at) {
        Ok(read) => Ok((read.statement, read.next)),
        Err(stop) => Err(with_line(tokens, stop)),
    }
}
