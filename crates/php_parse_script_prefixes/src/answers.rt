// What is answered of a script and of its changes.

ghost use Rattle.std.specs.Prelude.{◌≤◌, length};

use crate::words::{Change, Word, changed, first_words};
use php_lex::{Tokens, lex};
use php_parse_script::{ParseFail, parse};
use std::alloc::{AllocError, Global};

/// What becomes of a script.
#[derive(Clone, Copy)]
enum Outcome {
    Read,
    /// At this token, and whether it stands behind all tokens.
    Refused(usize, bool),
    Deep,
    /// There are no tokens.
    Cut,
    NoMemory,
}

fn outcome_of(alloc: Global, tokens: &Tokens) -> Outcome {
    match parse(alloc, tokens) {
        Ok(_) => Outcome::Read,
        Err(ParseFail::Syntax(place, _)) => Outcome::Refused(place, place == tokens.len()),
        Err(ParseFail::TooDeep(_, _)) => Outcome::Deep,
        Err(ParseFail::NoMemory) => Outcome::NoMemory,
    }
}

fn script_outcome(alloc: Global, script: &[u8]) -> Outcome {
    if script.len() > 1_048_576 {
        return Outcome::Cut;
    }
    cut_outcome(alloc, script)
}

fn cut_outcome(alloc: Global, script: &[u8]) -> Outcome
    requires { length script.now ≤ 1048576 }
{
    match lex(alloc, script) {
        Ok(tokens) => outcome_of(alloc, &tokens),
        Err(_) => Outcome::Cut,
    }
}

fn put(alloc: Global, out: &mut String, place: usize) -> Result<(), AllocError> {
    let digits = format!(in alloc; " {place}")?;
    out.push_str(digits.as_str())
}

fn put_outcome(alloc: Global, out: &mut String, outcome: Outcome) -> Result<(), AllocError> {
    match outcome {
        Outcome::Read => out.push_str(" ok"),
        Outcome::Refused(place, _) => put(alloc, out, place),
        Outcome::Deep => out.push_str(" deep"),
        Outcome::Cut => out.push_str(" cut"),
        Outcome::NoMemory => out.push_str(" no memory"),
    }
}

fn trimmed(alloc: Global, out: &str) -> Result<String, AllocError> {
    match out.strip_prefix(" ") {
        Some(rest) => format!(in alloc; "{rest}"),
        None => format!(in alloc; "{out}"),
    }
}

// A beginning that is a script is told, and one that isn't refused at its end.
fn put_beginning(
    alloc: Global,
    out: &mut String,
    count: usize,
    outcome: Outcome,
) -> Result<(), AllocError> {
    match outcome {
        Outcome::Read => put(alloc, out, count),
        Outcome::Refused(_, true) => Ok(()),
        other => {
            put(alloc, out, count)?;
            out.push_str(" not at its end")?;
            put_outcome(alloc, out, other)
        }
    }
}

/// How many of the first words are a script.
pub(crate) fn beginnings(alloc: Global, words: &[Word]) -> Result<String, AllocError> {
    let mut out = String::new(alloc);
    for count in 0..words.len() {
        let script = first_words(alloc, words, count)?;
        put_beginning(
            alloc,
            &mut out,
            count,
            script_outcome(alloc, script.as_bytes()),
        )?;
    }
    let script = first_words(alloc, words, words.len())?;
    put_beginning(
        alloc,
        &mut out,
        words.len(),
        script_outcome(alloc, script.as_bytes()),
    )?;
    trimmed(alloc, out.as_str())
}

// How many words a change may begin at: nothing stands behind the last one.
fn count_of(words: &[Word], change: Change) -> usize {
    match change {
        Change::Swapped => words.len().saturating_sub(1),
        _ => words.len(),
    }
}

/// What becomes of the script with this change at each of its words.
pub(crate) fn changes(alloc: Global, words: &[Word], change: Change) -> Result<String, AllocError> {
    let mut out = String::new(alloc);
    for at in 0..count_of(words, change) {
        let script = changed(alloc, words, at, change)?;
        put_outcome(alloc, &mut out, script_outcome(alloc, script.as_bytes()))?;
    }
    trimmed(alloc, out.as_str())
}
