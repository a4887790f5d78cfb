// What is answered of a text.

ghost use Rattle.std.specs.Prelude.{◌≤◌, length};

use crate::printer::print_last;
use crate::shapes::shown_shape;
use php_ast::Expr;
use php_cases::script_of;
use php_lex::lex;
use php_parse_expression::parse_expr;
use std::alloc::{AllocError, Global};

/// The answer of a case: of a shape by its name, else of the expression at the front of a script, inside so many
/// constructs, 128 where there are more.
pub(crate) fn answer_of(alloc: Global, text: &str, constructs: u32) -> Result<String, AllocError> {
    if let Some(name) = text.strip_prefix("shape ") {
        return shown_shape(alloc, name);
    }
    let script = script_of(alloc, text)?;
    if script.as_bytes().len() > 1_048_576 {
        return format!(in alloc; "too long");
    }
    parsed(alloc, script.as_bytes(), constructs.min(128))
}

fn parsed(alloc: Global, script: &[u8], depth: u32) -> Result<String, AllocError>
    requires short { length script.now ≤ 1048576 }
    requires shallow { depth ≤ 128 }
{
    let tokens = match lex(alloc, script) {
        Ok(tokens) => tokens,
        Err(fault) => return format!(in alloc; "{fault:?}"),
    };
    match parse_expr(alloc, &tokens, 0, depth) {
        Ok((e, next)) => tree_before(alloc, e, next),
        Err(refusal) => format!(in alloc; "{refusal:?}"),
    }
}

fn tree_before(alloc: Global, e: Expr, next: usize) -> Result<String, AllocError> {
    let tree = print_last(alloc, e, 300)?;
    format!(in alloc; "{tree} @{next}")
}
