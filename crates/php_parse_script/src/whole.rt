// The script that the tokens of a file spell.

ghost use Rattle.std.specs.Prelude.{◌≡◌, true, IfOk, IfErr};
ghost use Rattle.php_parse_script.specs.Exact as exact;
ghost use Rattle.php_flat.specs.Declarations.{is_flat_script};

use crate::script::read_script;
use php_ast::Script;
use php_lex::Tokens;
use php_reader::limit::NESTING_LIMIT;
use php_reader::{ParseFail, Reader, with_line};
use std::alloc::Global;

/// The script that the tokens spell, where they spell one that is not nested too deep.
///
/// Else `Syntax` with the place and the line of the first token that no script goes on with that begins with the tokens
/// before it, or with the number of the tokens where a script needs more of them; or `TooDeep` with the place and the
/// line of the first token inside more than 128 constructs, where that comes first. `NoMemory` comes for want of memory.
pub fn parse(alloc: Global, tokens: &Tokens) -> Result<Script, ParseFail>
    ensures read { IfOk result (λ s. exact.IsRead tokens.now s) }
    ensures flat { IfOk result (λ s. is_flat_script s ≡ true) }
    ensures refused { IfErr result (λ fail. exact.IsRefused tokens.now fail) }
{
    let reader = Reader {
        alloc,
        tokens,
        room: NESTING_LIMIT + 1,
    };
    match read_script(&reader) {
        Ok(read) => Ok(read.script),
        Err(stop) => Err(with_line(tokens, stop)),
    }
}
