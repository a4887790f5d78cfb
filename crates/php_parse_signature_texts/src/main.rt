// Tries texts of signatures. A line of the input is
//
//     # TITLE                     a title
//     inside N                    the texts behind it stand inside N constructs, at most 128; at first inside none
//     from N                      the signatures of the texts behind it begin at token N; at first at token 0
//     TEXT ==> ANSWER             what is answered of the signature in the text behind `<?php `: its parameters and its
//                                 result, as `php_case_trees` prints them, and the place of the token behind it, or the
//                                 refusal with its place and line; in a text `\n` is a line feed and `\r` a carriage
//                                 return
#![tactic(auto)]

mod answer;

use answer::answer_of;
use php_cases::{Around, Subject, run};
use std::alloc::{AllocError, Global};
use std::io;

/// The parser of signatures, inside so many constructs, and from a place on.
#[derive(Drop)]
struct Signatures {
    around: Around,
}

impl Subject for Signatures {
    fn tell(&mut self, _: Global, line: &str) -> Result<(), AllocError> {
        self.around.tell(line);
        Ok(())
    }

    fn answer(&mut self, alloc: Global, asked: &str) -> Result<String, AllocError> {
        answer_of(alloc, asked, self.around)
    }
}

fn main(rt: HostRuntime) -> io::Result<()> {
    let mut signatures = Signatures {
        around: Around::NOTHING,
    };
    run(&rt, &mut signatures)
}
