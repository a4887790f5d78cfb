// Tries calls of an ordered array, one behind another. A line of the input is
//
//     # TITLE           a title
//     new               the calls behind it start from an array without entries
//     CALL ==> ANSWER   what a call answers (`calls` says which there are); a key is an integer, and else a text
//
// `random SEED ROUNDS CALLS ==> alike` makes calls by chance on arrays and on plain lists, and compares their answers.
#![tactic(auto)]

mod calls;
mod plain;
mod random;
mod shown;
mod subject;

use php_cases::run;
use std::io;
use subject::Arrays;

fn main(rt: HostRuntime) -> io::Result<()> {
    let mut arrays = Arrays::new(rt.alloc());
    run(&rt, &mut arrays)
}
