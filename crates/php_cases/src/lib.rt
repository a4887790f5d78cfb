// Cases that stand in a program's input: what is asked, and what is to be answered. A line of the input is
//
//     ASKED ==> WANTED    a case: `ok` is written behind what was asked, or else what was answered and what is wanted
//     any other           a title, or what the cases behind it start from; it is written again
//
// Behind all lines their count is written. What is wanted stands in the input and so comes from outside the program.
#![tactic(auto)]

mod texts;

use std::alloc::{AllocError, Global};
use std::io::{self, BufRead, BufReader};
pub use texts::{Around, script_of};

/// What is tried by cases.
pub trait Subject {
    /// Takes a line that isn't a case. Unless said otherwise such a line is a title, and tells nothing.
    fn tell(&mut self, _: Global, _: &str) -> Result<(), AllocError> {
        Ok(())
    }

    /// What is answered of a case.
    fn answer(&mut self, alloc: Global, asked: &str) -> Result<String, AllocError>;
}

fn is_met<S: Subject>(
    rt: &impl Print,
    alloc: Global,
    subject: &mut S,
    asked: &str,
    wanted: &str,
) -> io::Result<bool> {
    let answer = subject.answer(alloc, asked)?;
    if answer.as_str() == wanted {
        println!(rt; "{asked} ok")?;
        return Ok(true);
    }
    println!(rt; "{asked} ==> {answer}, and not {wanted}")?;
    Ok(false)
}

/// Reads all lines, writes what becomes of each, and at the end how many cases are met.
pub fn run<S: Subject>(
    rt: &(impl Input + Print + Alloc<A = Global>),
    subject: &mut S,
) -> io::Result<()> {
    let alloc = rt.alloc();
    let mut cases = 0u32;
    let mut met = 0u32;
    for line in BufReader::new(alloc, rt.reader())?.lines(alloc) {
        let line = line?;
        if let Some((asked, wanted)) = line.split_once(" ==> ") {
            cases = cases.saturating_add(1);
            if is_met(rt, alloc, subject, asked, wanted)? {
                met = met.saturating_add(1);
            }
        } else {
            subject.tell(alloc, line.as_str())?;
            println!(rt; "{line}")?;
        }
    }
    println!(rt; "{met} of {cases} cases are as wanted")
}
