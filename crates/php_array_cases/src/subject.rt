// The array that the calls change, and which call a line asks for.

use crate::shown::{listed, number};
use crate::{calls, random};
use php_array::Entries;
use php_base::{Ledger, NoMemory};
use php_cases::Subject;
use std::alloc::{AllocError, Global};

/// An array, with what goes beside it.
#[derive(Drop)]
pub(crate) struct Arrays {
    pub(crate) array: Entries<u32>,
    pub(crate) ledger: Ledger,
    /// The place that a walk met last.
    pub(crate) place: usize,
    pub(crate) tally: Entries<u64>,
}

impl Arrays {
    pub(crate) fn new(alloc: Global) -> Arrays {
        Arrays {
            array: Entries::new(alloc),
            ledger: Ledger { made: 0 },
            place: 0,
            tally: Entries::new(alloc),
        }
    }

    // A call that changes the array, or a walk.
    fn change(&mut self, alloc: Global, call: Call<'_>) -> Result<String, NoMemory> {
        match call.name {
            "set" => calls::set(alloc, self, call.first, call.second),
            "append" => calls::append(alloc, self, call.first),
            "write" => calls::write(alloc, &mut self.array, call.first, call.second),
            "replace" => calls::replace(alloc, &mut self.array, call.first, call.second),
            "remove" => calls::remove(alloc, &mut self.array, call.first),
            "pop" => calls::pop(alloc, &mut self.array),
            "raise" => calls::raise(alloc, self, call.first),
            "zero" => calls::zero(alloc, self),
            "enqueue" => calls::put_in_line(alloc, self, call.first),
            "dequeue" => calls::take_from_line(alloc, &mut self.array),
            "count" => calls::count(alloc, self, call.first),
            _ => self.look(alloc, call),
        }
    }

    // A call that changes no entry.
    fn look(&mut self, alloc: Global, call: Call<'_>) -> Result<String, NoMemory> {
        match call.name {
            "get" => calls::get(alloc, &self.array, call.first),
            "after" => calls::after(alloc, &self.array, number(call.first)),
            "near" => calls::near(alloc, self, number(call.first)),
            "len" => calls::len(alloc, &self.array),
            "made" => Ok(format!(in alloc; "{}", self.ledger.made)?),
            "list" => listed(alloc, &self.array),
            "random" => random::rounds(
                alloc,
                number(call.first),
                number(call.second),
                number(call.third),
            ),
            _ => Ok(format!(in alloc; "no call")?),
        }
    }
}

impl Subject for Arrays {
    fn tell(&mut self, alloc: Global, line: &str) -> Result<(), AllocError> {
        if line == "new" {
            *self = Arrays::new(alloc);
        }
        Ok(())
    }

    fn answer(&mut self, alloc: Global, asked: &str) -> Result<String, AllocError> {
        match self.change(alloc, call_of(asked)) {
            Ok(answer) => Ok(answer),
            Err(NoMemory) => Err(AllocError),
        }
    }
}

/// A call as words, which are empty where there are fewer.
#[derive(Clone, Copy)]
struct Call<'a> {
    name: &'a str,
    first: &'a str,
    second: &'a str,
    third: &'a str,
}

fn call_of(asked: &str) -> Call<'_> {
    let (name, rest) = asked.split_once(' ').unwrap_or((asked, ""));
    let (first, rest) = rest.split_once(' ').unwrap_or((rest, ""));
    let (second, third) = rest.split_once(' ').unwrap_or((rest, ""));
    Call {
        name,
        first,
        second,
        third,
    }
}
