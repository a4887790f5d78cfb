// Tries the beginnings of scripts, and scripts with a word too few, too many or at the wrong place. A line of the input is
//
//     # TITLE             a title
//     script NAME         a script, whose lines follow; in the file `<?php` and a line feed stand before them
//     | TEXT              a line of it: words with blanks between them, each of which is one token or more
//     prefixes ==> N ..   how many of its words are a script by themselves; of all others the refusal is to be behind their
//                         last token
//     dropped ==> P ..    what becomes of the script without its first word, without its second one, and so on: the place of
//                         the token that is refused, or `ok`; `deep` where one is nested too deep, `cut` where there are no
//                         tokens
//     doubled ==> P ..    likewise with each word twice
//     swapped ==> P ..    likewise with each word behind the next one
#![tactic(auto)]

mod answers;
mod words;

use answers::{beginnings, changes};
use php_cases::{Subject, run};
use std::alloc::{AllocError, Global};
use std::io;
use words::{Change, Word};

/// The script whose words are tried.
#[derive(Drop)]
struct Prefixes {
    words: Vec<Word>,
}

impl Subject for Prefixes {
    fn tell(&mut self, alloc: Global, line: &str) -> Result<(), AllocError> {
        if line.starts_with("script ") {
            self.words = Vec::new(alloc);
        }
        match line.strip_prefix("| ") {
            Some(text) => words::add_line(alloc, &mut self.words, text),
            None => Ok(()),
        }
    }

    fn answer(&mut self, alloc: Global, asked: &str) -> Result<String, AllocError> {
        match asked {
            "prefixes" => beginnings(alloc, self.words.as_slice()),
            "dropped" => changes(alloc, self.words.as_slice(), Change::Dropped),
            "doubled" => changes(alloc, self.words.as_slice(), Change::Doubled),
            "swapped" => changes(alloc, self.words.as_slice(), Change::Swapped),
            _ => format!(in alloc; "not asked so"),
        }
    }
}

fn main(rt: HostRuntime) -> io::Result<()> {
    let mut prefixes = Prefixes {
        words: Vec::new(rt.alloc()),
    };
    run(&rt, &mut prefixes)
}
