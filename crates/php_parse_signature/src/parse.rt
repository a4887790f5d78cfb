// The signature that begins at a place among the tokens of a script.

ghost use Rattle.std.specs.Prelude.{◌≡◌, ◌≤◌, true, length, IfOk, IfErr};
ghost use Rattle.php_parse_signature.specs.Exact as exact;
ghost use Rattle.php_flat.specs.Declarations.{is_flat_signature};

use crate::signature::read_signature;
use php_ast::Signature;
use php_lex::Tokens;
use php_reader::limit::NESTING_LIMIT;
use php_reader::{ParseFail, Reader, with_line};
use std::alloc::Global;

/// The signature that begins at the token `at`, and the place of the first token behind it.
///
/// Of the tokens from `at` on as many are read as begin a signature. Where these spell one, it is answered; else `Syntax`
/// with the place of the first token that was not read, and its line. A token behind them that no signature goes on with
/// is left to the caller; a `:` goes on with one that has no result. The values of its parameters are flat. `depth` is how
/// many constructs are open around `at`; the first token inside more than 128 of them is `TooDeep`. `NoMemory` comes for
/// want of memory.
pub fn parse_signature(
    alloc: Global,
    tokens: &Tokens,
    at: usize,
    depth: u32,
) -> Result<(Signature, usize), ParseFail>
    requires within { at ≤ length tokens.now }
    requires shallow { depth ≤ 128 }
    ensures read { IfOk result (λ r. exact.IsRead depth tokens.now at r.0 r.1) }
    ensures flat { IfOk result (λ r. is_flat_signature r.0 ≡ true) }
    ensures refused { IfErr result (λ fail. exact.IsRefused depth tokens.now at fail) }
{
    let reader = Reader {
        alloc,
        tokens,
        room: NESTING_LIMIT + 1 - depth as usize,
    };
    match read_signature(&reader, at) {
        Ok(read) => Ok((read.signature, read.next)),
        Err(stop) => Err(with_line(tokens, stop)),
    }
}
