// Tries which tokens of a script are those of the first language. A line of the input is
//
//     # TITLE            a title
//     TEXT ==> TOKENS    the tokens of a text, with their lines where these change, and the names of its variables, or
//                        `another language`; in a text `\n` is a line feed
#![tactic(auto)]

use php_base::NoMemory;
use php_cases::{Subject, run};
use php_first_tokens::{FirstTokens, narrow};
use php_lex::lex;
use std::alloc::{AllocError, Global};
use std::io;

fn put_tokens(
    alloc: Global,
    shown: &mut String,
    first: &FirstTokens<'_>,
) -> Result<(), AllocError> {
    let mut line = 0;
    for token in &first.tokens {
        if token.line != line {
            line = token.line;
            let number = format!(in alloc; "{line}: ")?;
            shown.push_str(number.as_str())?;
        }
        let lexeme = format!(in alloc; "{:?} ", token.lexeme)?;
        shown.push_str(lexeme.as_str())?;
    }
    Ok(())
}

fn put_name(shown: &mut String, name: &[u8]) -> Result<(), AllocError> {
    shown.push(' ')?;
    for byte in name {
        shown.push(*byte as char)?;
    }
    Ok(())
}

fn shown(alloc: Global, first: &FirstTokens<'_>) -> Result<String, AllocError> {
    let mut shown = String::new(alloc);
    put_tokens(alloc, &mut shown, first)?;
    shown.push_str("names:")?;
    for name in &first.names {
        put_name(&mut shown, name)?;
    }
    Ok(shown)
}

/// What is answered of a script.
fn answer_of(alloc: Global, script: &[u8]) -> Result<String, AllocError> {
    if script.len() > 1_048_576 {
        return format!(in alloc; "too long");
    }
    let tokens = match lex(alloc, script) {
        Ok(tokens) => tokens,
        Err(fault) => return format!(in alloc; "{fault:?}"),
    };
    match narrow(alloc, &tokens) {
        Ok(Some(first)) => shown(alloc, &first),
        Ok(None) => format!(in alloc; "another language"),
        Err(NoMemory) => Err(AllocError),
    }
}

#[derive(Clone, Copy)]
struct Narrowing;

impl Subject for Narrowing {
    fn answer(&mut self, alloc: Global, asked: &str) -> Result<String, AllocError> {
        let script = asked.replace(alloc, "\\n", "\n")?;
        answer_of(alloc, script.as_bytes())
    }
}

fn main(rt: HostRuntime) -> io::Result<()> {
    let mut narrowing = Narrowing;
    run(&rt, &mut narrowing)
}
