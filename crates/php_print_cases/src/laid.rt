// What is laid out from single tokens.

use php_base::NoMemory;
use php_print::{Printed, lay_out};
use php_token::{Cast, Keyword, Punct};
use php_value::Text;
use std::alloc::Global;

/// Bytes as a case shows them.
pub(crate) fn shown(alloc: Global, bytes: &[u8]) -> Result<String, NoMemory> {
    let mut out = String::new(alloc);
    for byte in bytes {
        if *byte < b' ' || *byte > b'~' {
            let number = format!(in alloc; "<{byte}>")?;
            out.push_str(number.as_str())?;
        } else {
            out.push(*byte as char)?;
        }
    }
    if out.is_empty() {
        out.push_str("nothing")?;
    }
    Ok(out)
}

fn text_token(kind: &str, text: Text) -> Printed {
    match kind {
        "inline" => Printed::Inline(text),
        "name" => Printed::Name(text),
        "variable" => Printed::Variable(text),
        "string" => Printed::Str(text),
        _ => Printed::Piece(text),
    }
}

fn token(alloc: Global, kind: &str) -> Result<Printed, NoMemory> {
    match kind {
        "int" => Ok(Printed::Int(-3)),
        "quote" => Ok(Printed::Quote),
        "unquote" => Ok(Printed::Unquote),
        "part" => Ok(Printed::Part),
        "end part" => Ok(Printed::EndPart),
        "keyword" => Ok(Printed::Keyword(Keyword::EndIf)),
        "punctuator" => Ok(Printed::Punct(Punct::Arrow)),
        "cast" => Ok(Printed::Cast(Cast::Str)),
        _ => Ok(text_token(kind, Text::from_bytes(alloc, b"a b")?)),
    }
}

/// A token of a kind between two integers. A token with a text has the text `a b`.
pub(crate) fn token_text(alloc: Global, kind: &str) -> Result<String, NoMemory> {
    let token = token(alloc, kind)?;
    let text = lay_out(alloc, &[Printed::Int(1), token, Printed::Int(2)])?;
    shown(alloc, text.as_slice())
}

/// A text of one byte.
pub(crate) fn byte_text(alloc: Global, byte: u8) -> Result<String, NoMemory> {
    let text = lay_out(alloc, &[Printed::Str(Text::from_bytes(alloc, &[byte])?)])?;
    shown(alloc, text.as_slice())
}
