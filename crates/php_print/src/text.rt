// Lays printed tokens out as text, for people who debug.

use crate::printed::Printed;
use crate::words::{cast_text, keyword_text, punct_text};
use php_base::NoMemory;
use std::alloc::Global;

/// Tokens on one line, with a blank between each two. Variables have their `$`, keywords are in lower
/// case, and bytes outside the tags stand as they are between `?>` and `<?php`. Texts stand between
/// double quotes, where `"`, `\`, `$` and control bytes are escaped. A text with parts has no blanks
/// but within its parts, which stand in braces. `NoMemory` comes only for want of memory.
///
/// The text is made for reading. That it is cut into the same tokens again is not promised.
pub fn lay_out(alloc: Global, tokens: &[Printed]) -> Result<Vec<u8>, NoMemory> {
    let mut text = Vec::new(alloc);
    let mut is_joined = true;
    for token in tokens {
        if !is_joined && !joins_before(token) {
            text.push(b' ')?;
        }
        push_token(alloc, token, &mut text)?;
        is_joined = joins_behind(token);
    }
    Ok(text)
}

// Whether no blank stands before a token.
fn joins_before(token: &Printed) -> bool {
    matches!(
        token,
        Printed::Piece(_) | Printed::Part | Printed::EndPart | Printed::Unquote
    )
}

// Whether no blank stands behind a token.
fn joins_behind(token: &Printed) -> bool {
    matches!(
        token,
        Printed::Quote | Printed::Piece(_) | Printed::Part | Printed::EndPart
    )
}

fn push_token(alloc: Global, token: &Printed, text: &mut Vec<u8>) -> Result<(), NoMemory> {
    match token {
        Printed::Inline(bytes) => push_between(b"?>", bytes.bytes(), b"<?php", text),
        Printed::Name(name) => push(name.bytes(), text),
        Printed::Variable(name) => push_between(b"$", name.bytes(), b"", text),
        Printed::Int(n) => push_int(alloc, *n, text),
        Printed::Str(bytes) => push_quoted(alloc, bytes.bytes(), text),
        Printed::Quote | Printed::Unquote => push(b"\"", text),
        Printed::Piece(bytes) => push_escaped(alloc, bytes.bytes(), text),
        Printed::Part => push(b"{", text),
        Printed::EndPart => push(b"}", text),
        Printed::Keyword(word) => push(keyword_text(*word).as_bytes(), text),
        Printed::Punct(mark) => push(punct_text(*mark).as_bytes(), text),
        Printed::Cast(cast) => push(cast_text(*cast).as_bytes(), text),
    }
}

fn push(bytes: &[u8], text: &mut Vec<u8>) -> Result<(), NoMemory> {
    text.extend_from_slice(bytes)?;
    Ok(())
}

fn push_between(
    before: &[u8],
    bytes: &[u8],
    behind: &[u8],
    text: &mut Vec<u8>,
) -> Result<(), NoMemory> {
    push(before, text)?;
    push(bytes, text)?;
    push(behind, text)
}

fn push_int(alloc: Global, n: i64, text: &mut Vec<u8>) -> Result<(), NoMemory> {
    let digits = format!(in alloc; "{n}")?;
    push(digits.as_bytes(), text)
}

fn push_quoted(alloc: Global, bytes: &[u8], text: &mut Vec<u8>) -> Result<(), NoMemory> {
    push(b"\"", text)?;
    push_escaped(alloc, bytes, text)?;
    push(b"\"", text)
}

fn push_escaped(alloc: Global, bytes: &[u8], text: &mut Vec<u8>) -> Result<(), NoMemory> {
    for byte in bytes {
        push_byte(alloc, *byte, text)?;
    }
    Ok(())
}

fn push_byte(alloc: Global, byte: u8, text: &mut Vec<u8>) -> Result<(), NoMemory> {
    match byte {
        b'"' | b'\\' | b'$' => push(&[b'\\', byte], text),
        b'\n' => push(b"\\n", text),
        b'\r' => push(b"\\r", text),
        b'\t' => push(b"\\t", text),
        0..=31 | 127 => {
            let escape = format!(in alloc; "\\x{byte:02x}")?;
            push(escape.as_bytes(), text)
        }
        _ => push(&[byte], text),
    }
}
