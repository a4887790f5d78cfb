// What is answered of a text.

ghost use Rattle.std.specs.Prelude.{◌≤◌, length};

use php_ast::Script;
use php_lex::{Tokens, lex};
use php_names::{NameFail, check};
use php_parse_script::{ParseFail, parse};
use std::alloc::{AllocError, Global};

/// The answer of a case: of the text behind so many statements.
pub(crate) fn answer_of(alloc: Global, text: &str, behind: usize) -> Result<String, AllocError> {
    let script = script_of(alloc, text, behind)?;
    if script.as_bytes().len() > 1_048_576 {
        return format!(in alloc; "too long");
    }
    parsed(alloc, script.as_bytes())
}

fn script_of(alloc: Global, text: &str, behind: usize) -> Result<String, AllocError> {
    let mut script = format!(in alloc; "<?php ")?;
    for number in 0..behind {
        let statement = format!(in alloc; "$v{number};")?;
        script.push_str(statement.as_str())?;
    }
    let text = text.replace(alloc, "\\n", "\n")?;
    script.push_str(text.as_str())?;
    Ok(script)
}

// What is refused of a text, or nothing where it is legal. Trees are let go of where no memory is taken any more, since the check takes
// long over each path on which one is let go of.
#[derive(Clone, Copy)]
enum Told {
    Legal,
    Unread(ParseFail),
    Refused(NameFail),
}

fn checked(alloc: Global, script: Script) -> Told {
    match check(alloc, script) {
        Ok(_) => Told::Legal,
        Err(fault) => Told::Refused(fault),
    }
}

fn read(alloc: Global, tokens: &Tokens) -> Told {
    match parse(alloc, tokens) {
        Ok(script) => checked(alloc, script),
        Err(refusal) => Told::Unread(refusal),
    }
}

fn parsed(alloc: Global, script: &[u8]) -> Result<String, AllocError>
    requires { length script.now ≤ 1048576 }
{
    let tokens = match lex(alloc, script) {
        Ok(tokens) => tokens,
        Err(fault) => return format!(in alloc; "{fault:?}"),
    };
    match read(alloc, &tokens) {
        Told::Legal => format!(in alloc; "legal"),
        Told::Unread(refusal) => format!(in alloc; "{refusal:?}"),
        Told::Refused(fault) => format!(in alloc; "{fault:?}"),
    }
}
