// The scripts that are read.

use std::alloc::Global;
use std::io;

/// The longest script that a lexer takes, in bytes.
pub const LONGEST: usize = 1_048_576;

/// Operators in the order of their powers, each of which goes on inside the right side of the one before it, and a parenthesis.
pub const RISING: &[u8] = b"1 or 1 xor 1 and 1 ? 1 : 1 || 1 && 1 | 1 ^ 1 & 1 == 1 < 1 << 1 + 1 * (";

/// How scripts of one form are written: `begin`, then links, then `end`. A link is `open` some times over, `middle`, `close` as
/// often, and `last`.
#[derive(Clone, Copy)]
pub struct Form {
    pub(crate) name: &'static str,
    /// How many items a link counts as.
    items: usize,
    begin: &'static [u8],
    open: &'static [u8],
    depth: usize,
    middle: &'static [u8],
    close: &'static [u8],
    last: &'static [u8],
    end: &'static [u8],
}

/// A form whose links stand side by side. Each counts as so many items.
pub fn flat(
    name: &'static str,
    items: usize,
    begin: &'static [u8],
    link: &'static [u8],
    end: &'static [u8],
) -> Form {
    Form {
        name,
        items,
        begin,
        open: b"",
        depth: 0,
        middle: link,
        close: b"",
        last: b"",
        end,
    }
}

/// A form whose links nest so deep. Each counts as so many items as it is deep.
pub fn deep(
    name: &'static str,
    depth: usize,
    open: &'static [u8],
    middle: &'static [u8],
    close: &'static [u8],
    last: &'static [u8],
) -> Form {
    Form {
        name,
        items: depth,
        begin: b"",
        open,
        depth,
        middle,
        close,
        last,
        end: b"",
    }
}

/// Adds bytes some times over.
fn repeat(text: &mut Vec<u8>, bytes: &[u8], times: usize) -> io::Result<()> {
    for _ in 0..times {
        text.extend_from_slice(bytes)?;
    }
    Ok(())
}

impl Form {
    /// The same links between these bytes.
    pub fn between(self, begin: &'static [u8], end: &'static [u8]) -> Form {
        Form { begin, end, ..self }
    }

    fn link(&self, alloc: Global) -> io::Result<Vec<u8>> {
        let mut link = Vec::new(alloc);
        repeat(&mut link, self.open, self.depth)?;
        link.extend_from_slice(self.middle)?;
        repeat(&mut link, self.close, self.depth)?;
        link.extend_from_slice(self.last)?;
        Ok(link)
    }

    /// A script of so many items, or of as many as fit into the longest one.
    pub fn script(&self, alloc: Global, items: usize) -> io::Result<Vec<u8>> {
        let link = self.link(alloc)?;
        let end = self.end.len().saturating_add(1);
        let mut script = Vec::new(alloc);
        script.extend_from_slice(b"<?php ")?;
        script.extend_from_slice(self.begin)?;
        for _ in 0..items.checked_div(self.items).unwrap_or(0) {
            if LONGEST.saturating_sub(script.len()) < link.len().saturating_add(end) {
                break;
            }
            script.extend_from_slice(&link)?;
        }
        script.extend_from_slice(self.end)?;
        script.extend_from_slice(b";")?;
        Ok(script)
    }
}
