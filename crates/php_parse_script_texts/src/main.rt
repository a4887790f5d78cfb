// Tries texts of scripts. A line of the input is
//
//     # TITLE                     a title
//     inside N                    the texts behind it stand inside N blocks, at most 200; at first inside none
//     TEXT ==> ANSWER             what is answered of the text behind `<?php `: the script as `php_case_trees` prints it,
//                                 without the blocks around it, or the refusal with its place and line; in a text `\n` is
//                                 a line feed and `\r` a carriage return
#![tactic(auto)]

mod answer;

use answer::answer_of;
use php_cases::{Around, Subject, run};
use std::alloc::{AllocError, Global};
use std::io;

/// The parser of scripts, inside so many blocks.
#[derive(Drop)]
struct Scripts {
    around: Around,
}

impl Subject for Scripts {
    fn tell(&mut self, _: Global, line: &str) -> Result<(), AllocError> {
        self.around.tell(line);
        Ok(())
    }

    fn answer(&mut self, alloc: Global, asked: &str) -> Result<String, AllocError> {
        answer_of(alloc, asked, self.around.constructs.min(200) as usize)
    }
}

fn main(rt: HostRuntime) -> io::Result<()> {
    let mut scripts = Scripts {
        around: Around::NOTHING,
    };
    run(&rt, &mut scripts)
}
