// Tries the code of small scripts. A line of the input is
//
//     # TITLE                 a title
//     TEXT ==> CODE           the code of a script that is the expression at the front of the text behind `<?php `, and
//                             the room of its block
//     echo TEXT ==> CODE      the code of a script that writes it
#![tactic(auto)]

mod answer;
mod listing;

use answer::answer_of;
use php_cases::{Subject, run};
use std::alloc::{AllocError, Global};
use std::io;

/// The compiler.
#[derive(Drop)]
struct Compiler;

impl Subject for Compiler {
    fn answer(&mut self, alloc: Global, asked: &str) -> Result<String, AllocError> {
        answer_of(alloc, asked)
    }
}

fn main(rt: HostRuntime) -> io::Result<()> {
    let mut compiler = Compiler;
    run(&rt, &mut compiler)
}
