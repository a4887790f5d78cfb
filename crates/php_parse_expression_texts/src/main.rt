// Tries texts of expressions. A line of the input is
//
//     # TITLE                     a title
//     inside N                    the texts behind it stand inside N constructs, at most 128; at first inside none
//     TEXT ==> ANSWER             what is answered of the expression at the front of the text behind `<?php `: its tree, as
//                                 the printer shows it, and the place of the token behind it, or the refusal with its
//                                 place and line; in a text `\n` is a line feed and `\r` a carriage return
//     shape NAME ==> PRINTED      how the printer shows a tree that no parser gives
#![tactic(auto)]

mod answer;
mod characters;
mod printer;
mod shapes;

use answer::answer_of;
use php_cases::{Around, Subject, run};
use std::alloc::{AllocError, Global};
use std::io;

/// The parser of expressions, inside so many constructs.
#[derive(Drop)]
struct Expressions {
    around: Around,
}

impl Subject for Expressions {
    fn tell(&mut self, _: Global, line: &str) -> Result<(), AllocError> {
        self.around.tell(line);
        Ok(())
    }

    fn answer(&mut self, alloc: Global, asked: &str) -> Result<String, AllocError> {
        answer_of(alloc, asked, self.around.constructs)
    }
}

fn main(rt: HostRuntime) -> io::Result<()> {
    let mut expressions = Expressions {
        around: Around::NOTHING,
    };
    run(&rt, &mut expressions)
}
