// Words of a case, and the values that they stand for.

use php_base::NoMemory;
use php_value::{Scalar, Text};
use std::alloc::{AllocError, Global};

/// A word of a case.
#[derive(Clone, Copy)]
pub(crate) enum Word<'a> {
    Plain(&'a str),
    /// What stands between two quotes.
    Quoted(&'a str),
}

/// The word at the front, and what stands behind it.
pub(crate) fn next_word(line: &str) -> (Word<'_>, &str) {
    if let Some(inside) = line.strip_prefix('"') {
        let (text, rest) = inside.split_once('"').unwrap_or((inside, ""));
        return (Word::Quoted(text), rest.strip_prefix(' ').unwrap_or(rest));
    }
    let (word, rest) = line.split_once(' ').unwrap_or((line, ""));
    (Word::Plain(word), rest)
}

/// An integer, 0 where a word is none.
pub(crate) fn integer(word: Word<'_>) -> i64 {
    match word {
        Word::Plain(digits) => digits.parse::<i64>().unwrap_or(0),
        Word::Quoted(_) => 0,
    }
}

/// The value that a word stands for. A word that is no value is taken for a text.
pub(crate) fn scalar(alloc: Global, word: Word<'_>) -> Result<Scalar, NoMemory> {
    match word {
        Word::Quoted(text) => Ok(Scalar::Str(text_of(alloc, text)?)),
        Word::Plain("null") => Ok(Scalar::Null),
        Word::Plain("true") => Ok(Scalar::Bool(true)),
        Word::Plain("false") => Ok(Scalar::Bool(false)),
        Word::Plain(digits) => match digits.parse::<i64>() {
            Ok(int) => Ok(Scalar::Int(int)),
            Err(_) => Ok(Scalar::Str(text_of(alloc, digits)?)),
        },
    }
}

fn text_of(alloc: Global, text: &str) -> Result<Text, NoMemory> {
    let bytes = bytes_of(alloc, text)?;
    Text::from_bytes(alloc, bytes.as_slice())
}

/// The bytes of a text in quotes.
pub(crate) fn bytes_of(alloc: Global, text: &str) -> Result<Vec<u8>, AllocError> {
    let mut bytes = Vec::new(alloc);
    let mut is_first = true;
    for piece in text.split("\\x") {
        put_piece(&mut bytes, piece.as_bytes(), is_first)?;
        is_first = false;
    }
    Ok(bytes)
}

// Puts the bytes up to the next `\x`, of which all but the first begin with the number of a byte.
fn put_piece(bytes: &mut Vec<u8>, piece: &[u8], is_first: bool) -> Result<(), AllocError> {
    match piece {
        [high, low, rest @ ..] if !is_first => {
            bytes.push(digit(*high).wrapping_mul(16).wrapping_add(digit(*low)))?;
            bytes.extend_from_slice(rest)
        }
        _ => bytes.extend_from_slice(piece),
    }
}

// A hexadecimal digit, 0 where a byte is none.
fn digit(byte: u8) -> u8 {
    match byte {
        b'0'..=b'9' => byte - b'0',
        b'a'..=b'f' => byte - b'a' + 10,
        _ => 0,
    }
}
