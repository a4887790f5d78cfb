// Tries the static checks on texts. A line of the input is
//
//     # TITLE                     a title
//     behind N                    the texts behind it stand behind N statements `$v0;`, `$v1;` and so on, at most 65,535; at first
//                                 behind none
//     TEXT ==> ANSWER             what is answered of the text behind `<?php ` and those statements: `legal`, or the kind of the first
//                                 fault with its line and the place of its token; in a text `\n` is a line feed
#![tactic(auto)]

mod answer;

use answer::answer_of;
use php_cases::{Subject, run};
use std::alloc::{AllocError, Global};
use std::io;

/// The checks of scripts, behind so many statements.
#[derive(Drop)]
struct Checks {
    behind: usize,
}

impl Subject for Checks {
    fn tell(&mut self, _: Global, line: &str) -> Result<(), AllocError> {
        if let Some(number) = line.strip_prefix("behind ") {
            self.behind = number.parse::<usize>().unwrap_or(0);
        }
        Ok(())
    }

    fn answer(&mut self, alloc: Global, asked: &str) -> Result<String, AllocError> {
        answer_of(alloc, asked, self.behind.min(65_535))
    }
}

fn main(rt: HostRuntime) -> io::Result<()> {
    let mut checks = Checks { behind: 0 };
    run(&rt, &mut checks)
}
