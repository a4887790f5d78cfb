// What is answered of a text.

ghost use Rattle.std.specs.Prelude.{◌≤◌, length};

use php_case_trees::signature_before;
use php_cases::{Around, script_of};
use php_lex::lex;
use php_parse_signature::parse_signature;
use std::alloc::{AllocError, Global};

/// The answer of a case: of the signature in a script from a place on, the end of the script where that is before the place,
/// inside so many constructs, 128 where there are more.
pub(crate) fn answer_of(alloc: Global, text: &str, around: Around) -> Result<String, AllocError> {
    let script = script_of(alloc, text)?;
    if script.as_bytes().len() > 1_048_576 {
        return format!(in alloc; "too long");
    }
    parsed(
        alloc,
        script.as_bytes(),
        around.constructs.min(128),
        around.place,
    )
}

fn parsed(alloc: Global, script: &[u8], depth: u32, place: usize) -> Result<String, AllocError>
    requires short { length script.now ≤ 1048576 }
    requires shallow { depth ≤ 128 }
{
    let tokens = match lex(alloc, script) {
        Ok(tokens) => tokens,
        Err(fault) => return format!(in alloc; "{fault:?}"),
    };
    match parse_signature(alloc, &tokens, place.min(tokens.len()), depth) {
        Ok((signature, next)) => signature_before(alloc, signature, next),
        Err(refusal) => format!(in alloc; "{refusal:?}"),
    }
}
