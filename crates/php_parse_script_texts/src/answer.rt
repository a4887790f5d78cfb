// What is answered of a text.

ghost use Rattle.std.specs.Prelude.{◌≤◌, length};

use php_case_trees::{print_script, repeated};
use php_cases::script_of;
use php_lex::lex;
use php_parse_script::parse;
use std::alloc::{AllocError, Global};

/// The answer of a case: of the script of a text inside so many blocks.
pub(crate) fn answer_of(alloc: Global, text: &str, blocks: usize) -> Result<String, AllocError> {
    let script = script_inside(alloc, text, blocks)?;
    if script.as_bytes().len() > 1_048_576 {
        return format!(in alloc; "too long");
    }
    parsed(alloc, script.as_bytes(), blocks)
}

fn script_inside(alloc: Global, text: &str, blocks: usize) -> Result<String, AllocError> {
    let opening = repeated(alloc, '{', blocks)?;
    let closing = repeated(alloc, '}', blocks)?;
    let inside = format!(in alloc; "{opening}{text}{closing}")?;
    script_of(alloc, inside.as_str())
}

fn parsed(alloc: Global, script: &[u8], blocks: usize) -> Result<String, AllocError>
    requires { length script.now ≤ 1048576 }
{
    let tokens = match lex(alloc, script) {
        Ok(tokens) => tokens,
        Err(fault) => return format!(in alloc; "{fault:?}"),
    };
    match parse(alloc, &tokens) {
        Ok(script) => print_script(alloc, script, blocks),
        Err(refusal) => format!(in alloc; "{refusal:?}"),
    }
}
