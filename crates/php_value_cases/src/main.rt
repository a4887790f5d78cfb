// Tries operators, conversions and comparisons of values, and the callers of values. A line of the input is
//
//     # TITLE                 a title
//     VALUE SIGN VALUE ==> ..     an operator with two operands (`calls::binary`)
//     NAME VALUE ==> ..           what is made of one value (`calls::alone`)
//     NAME VALUE VALUE ==> ..     what is made of several (`calls::further`)
//
// A value is `null`, `true`, `false`, an integer or a text in quotes, in which `\xHH` is the byte with that number.
#![tactic(auto)]

mod calls;
mod shown;
mod words;

use calls::answer_of;
use php_base::NoMemory;
use php_cases::{Subject, run};
use std::alloc::{AllocError, Global};
use std::io;

/// The values, which keep nothing from one case to the next.
#[derive(Clone, Copy)]
struct Values;

impl Subject for Values {
    fn answer(&mut self, alloc: Global, asked: &str) -> Result<String, AllocError> {
        match answer_of(alloc, asked) {
            Ok(answer) => Ok(answer),
            Err(NoMemory) => Err(AllocError),
        }
    }
}

fn main(rt: HostRuntime) -> io::Result<()> {
    let mut values = Values;
    run(&rt, &mut values)
}
