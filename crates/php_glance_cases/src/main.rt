// Tries what a look at two values tells. A line of the input is
//
//     # TITLE                     a title
//     VALUE <=> VALUE ==> ..      their order, or what decides it
//     VALUE === VALUE ==> ..      whether they are identical, or what decides it
//
// A value is `missing`, `null`, `true`, `false`, an integer, a text in quotes, `[3` for an array of so many entries, or
// `#2` for the object of that number.
#![tactic(auto)]

mod value;

use php_base::NoMemory;
use php_cases::{Subject, run};
use php_glance::{Glance, Likeness, at_a_glance, identity_at_a_glance};
use php_value::Stopped;
use std::alloc::{AllocError, Global};
use std::io;
use value::{Value, value_of};

/// The looks, which keep nothing from one case to the next.
#[derive(Clone, Copy)]
struct Looks;

fn shown_stop(alloc: Global, stopped: Stopped) -> Result<String, AllocError> {
    match stopped {
        Stopped::Fault(fault) => format!(in alloc; "fault {fault:?}"),
        Stopped::Throws(kind) => format!(in alloc; "throws {}", kind.0),
        Stopped::NoMemory => String::from_str(alloc, "want of memory"),
    }
}

fn shown_order(alloc: Global, left: &Value, right: &Value) -> Result<String, AllocError> {
    match at_a_glance(&left.peek(), &right.peek()) {
        Glance::Known(order) => format!(in alloc; "{order:?}"),
        Glance::Refused(stopped) => shown_stop(alloc, stopped),
        Glance::Arrays => String::from_str(alloc, "by entries"),
        Glance::Objects(left, right) => format!(in alloc;
            "by properties of {} and {}",
            left.0, right.0
        ),
    }
}

fn shown_identity(alloc: Global, left: &Value, right: &Value) -> Result<String, AllocError> {
    match identity_at_a_glance(&left.peek(), &right.peek()) {
        Likeness::Known(is_same) => format!(in alloc; "{is_same}"),
        Likeness::Arrays => String::from_str(alloc, "by entries"),
    }
}

fn answer_of(alloc: Global, asked: &str) -> Result<String, NoMemory> {
    if let Some((left, right)) = asked.split_once(" <=> ") {
        let left = value_of(alloc, left)?;
        let right = value_of(alloc, right)?;
        return Ok(shown_order(alloc, &left, &right)?);
    }
    if let Some((left, right)) = asked.split_once(" === ") {
        let left = value_of(alloc, left)?;
        let right = value_of(alloc, right)?;
        return Ok(shown_identity(alloc, &left, &right)?);
    }
    Ok(String::from_str(alloc, "no call")?)
}

impl Subject for Looks {
    fn answer(&mut self, alloc: Global, asked: &str) -> Result<String, AllocError> {
        match answer_of(alloc, asked) {
            Ok(answer) => Ok(answer),
            Err(NoMemory) => Err(AllocError),
        }
    }
}

fn main(rt: HostRuntime) -> io::Result<()> {
    let mut looks = Looks;
    run(&rt, &mut looks)
}
