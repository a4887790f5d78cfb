// Tries texts of parts of scripts, each read by itself. A line of the input is
//
//     # TITLE                     a title
//     parse KIND                  the texts behind it are read as an `expression`, a `signature` or a `statement`; at first
//                                 as a statement
//     inside N                    the texts behind it stand inside N constructs, at most 128; at first inside none
//     from N                      what is read of the texts behind it begins at token N; at first at token 0
//     TEXT ==> ANSWER             what is answered of the part in the text behind `<?php `: its tree as `php_case_trees`
//                                 prints it, or the tokens of an expression, and the place of the token behind it, or the
//                                 refusal with its place and line; in a text `\n` is a line feed and `\r` a carriage
//                                 return
#![tactic(auto)]

mod answer;

use answer::{Kind, answer_of};
use php_cases::{Around, Subject, run};
use std::alloc::{AllocError, Global};
use std::io;

/// The parsers of parts, inside so many constructs, and from a place on.
#[derive(Drop)]
struct Parts {
    kind: Kind,
    around: Around,
}

impl Subject for Parts {
    fn tell(&mut self, _: Global, line: &str) -> Result<(), AllocError> {
        match line.strip_prefix("parse ") {
            Some("expression") => self.kind = Kind::Expression,
            Some("signature") => self.kind = Kind::Signature,
            Some("statement") => self.kind = Kind::Statement,
            _ => self.around.tell(line),
        }
        Ok(())
    }

    fn answer(&mut self, alloc: Global, asked: &str) -> Result<String, AllocError> {
        answer_of(alloc, asked, self.kind, self.around)
    }
}

fn main(rt: HostRuntime) -> io::Result<()> {
    let mut parts = Parts {
        kind: Kind::Statement,
        around: Around::NOTHING,
    };
    run(&rt, &mut parts)
}
