// Tries the text that is laid out from printed tokens. A line of the input is
//
//     # TITLE                 a title
//     token KIND ==> TEXT     how a token of this kind stands between the integers 1 and 2
//     byte N ==> TEXT         a text of the byte with this number
//     tree NAME ==> TEXT      a small tree
//     count NAME ==> N        how many tokens a small tree has
//
// Of what is laid out a byte outside ASCII's printed characters is shown as `<N>`, and no byte at all as `nothing`.
#![tactic(auto)]

mod laid;
mod trees;

use laid::{byte_text, token_text};
use php_base::NoMemory;
use php_cases::{Subject, run};
use std::alloc::{AllocError, Global};
use std::io;
use trees::tree_text;

/// The printer, which keeps nothing from one case to the next.
#[derive(Clone, Copy)]
struct Printing;

fn answer_of(alloc: Global, asked: &str) -> Result<String, NoMemory> {
    if let Some(kind) = asked.strip_prefix("token ") {
        return token_text(alloc, kind);
    }
    if let Some(number) = asked.strip_prefix("byte ") {
        return byte_text(alloc, number.parse::<u8>().unwrap_or(0));
    }
    tree_text(alloc, asked)
}

impl Subject for Printing {
    fn answer(&mut self, alloc: Global, asked: &str) -> Result<String, AllocError> {
        match answer_of(alloc, asked) {
            Ok(answer) => Ok(answer),
            Err(NoMemory) => Err(AllocError),
        }
    }
}

fn main(rt: HostRuntime) -> io::Result<()> {
    let mut printing = Printing;
    run(&rt, &mut printing)
}
