// What cases of parsers have in common: the script of a text, and where what is read of it stands.

use std::alloc::{AllocError, Global};

/// What the lines between cases tell of the texts behind them.
#[derive(Clone, Copy)]
pub struct Around {
    /// How many constructs the texts stand inside.
    pub constructs: u32,
    /// The number of the token at which begins what is read of them.
    pub place: usize,
}

impl Around {
    /// Inside none, and from the first token on.
    pub const NOTHING: Around = Around {
        constructs: 0,
        place: 0,
    };

    /// Takes a line: `inside N` or `from N`. Any other one is a title.
    pub fn tell(&mut self, line: &str) {
        if let Some(number) = line.strip_prefix("inside ") {
            self.constructs = number.parse::<u32>().unwrap_or(0);
        }
        if let Some(number) = line.strip_prefix("from ") {
            self.place = number.parse::<usize>().unwrap_or(0);
        }
    }
}

/// The script that a text is: it stands behind `<?php `, and `\n` in it is a line feed, `\r` a carriage return.
pub fn script_of(alloc: Global, text: &str) -> Result<String, AllocError> {
    let text = text.replace(alloc, "\\r", "\r")?;
    let text = text.replace(alloc, "\\n", "\n")?;
    format!(in alloc; "<?php {text}")
}
