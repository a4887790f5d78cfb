// The expression that begins at a place among the tokens of a script.

ghost use Rattle.std.specs.Prelude.{◌≡◌, ◌≤◌, ◌-◌, true, length, IfOk, IfErr};
ghost use Rattle.php_parse_expression.specs.Exact as exact;
ghost use Rattle.php_build.specs.Flat.{is_flat};

use crate::expression::read_expression;
use php_ast::Expr;
use php_lex::Tokens;
use php_reader::limit::{LEAST_POWER, NESTING_LIMIT};
use php_reader::{ParseFail, Reader, with_line};
use std::alloc::Global;

/// The expression that begins at the token `at`, and the place of the first token behind it.
///
/// Of the tokens from `at` on as many are read as begin an expression. Where these spell one, it is answered;
/// else `Syntax` with the place of the first token that was not read, and its line. A token behind them that
/// no expression goes on with is left to the caller. A `yield` alone is answered where the token behind it may stand
/// there, else that token is `Syntax`. The expression is flat. `depth` is how many constructs are open around `at`; the
/// first token inside more than 128 of them is `TooDeep`. Calls nest as constructs do, and no further. `NoMemory` comes
/// for want of memory.
pub fn parse_expr(
    alloc: Global,
    tokens: &Tokens,
    at: usize,
    depth: u32,
) -> Result<(Expr, usize), ParseFail>
    requires within { at ≤ length tokens.now }
    requires shallow { depth ≤ 128 }
    ensures read { IfOk result (λ r. exact.IsRead depth tokens.now at r.0 r.1) }
    ensures flat { IfOk result (λ r. is_flat r.0 ≡ true) }
    ensures refused { IfErr result (λ fail. exact.IsRefused depth tokens.now at fail) }
{
    let reader = Reader {
        alloc,
        tokens,
        room: NESTING_LIMIT + 1 - depth as usize,
    };
    match read_expression(&reader, at, LEAST_POWER) {
        Ok(read) => Ok((read.expr, read.next)),
        Err(stop) => Err(with_line(tokens, stop)),
    }
}
