// The lines that are printed.

use crate::rounds::{Figures, Subject, measure};
use crate::texts::{Form, LONGEST};
use std::alloc::{Alloc, Global};
use std::time::Clock;
use std::{fmt, io};

/// About as many items are read for each line of figures.
const ITEMS: usize = 1_000_000;

const SMALL: usize = 1_000;

const LARGE: usize = 100_000;

/// The last is more than fits, so that the longest script is read.
const SIZES: [usize; 4] = [SMALL, 10_000, LARGE, LONGEST];

/// How forms are measured.
#[derive(Clone, Copy)]
pub struct Plan {
    /// What is said of a form that can't be read.
    pub unread: &'static str,
    /// A script is read at least 10 times, and no more often than this, where this is more.
    pub most_rounds: usize,
}

/// Tenths, written with a point.
#[derive(Clone, Copy)]
struct Tenths(u64);

impl fmt::Display for Tenths {
    fn fmt<W: fmt::Write>(&self, f: &mut fmt::Formatter<W>) -> fmt::Result {
        write!(f, "{}.{}", self.0 / 10, self.0 % 10)
    }
}

/// A time for each token.
fn each(nanoseconds: u64, figures: &Figures) -> Tenths {
    Tenths(
        nanoseconds
            .saturating_mul(10)
            .checked_div(figures.tokens)
            .unwrap_or(0),
    )
}

/// How many times as long a token takes in the second reading.
fn ratio(small: &Figures, large: &Figures) -> Tenths {
    let before = each(small.parsing, small);
    let after = each(large.parsing, large);
    Tenths(
        after
            .0
            .saturating_mul(10)
            .checked_div(before.0)
            .unwrap_or(0),
    )
}

fn print_line(rt: &impl Print, form: &Form, bytes: usize, figures: &Figures) -> io::Result<()> {
    println!(rt;
        "{}: {bytes} bytes, {} tokens; a token: lex {}, parse {}, drop {}; in all: lex {}, parse {}, drop {}",
        form.name,
        figures.tokens,
        each(figures.lexing, figures),
        each(figures.parsing, figures),
        each(figures.dropping, figures),
        figures.lexing,
        figures.parsing,
        figures.dropping
    )
}

/// Reads a script of each size, and prints how the time for a token grows from the smallest on.
fn print_form<S: Subject>(
    rt: &(impl Clock + Print + Alloc<A = Global>),
    subject: &mut S,
    plan: Plan,
    form: &Form,
) -> io::Result<()> {
    let mut small = None;
    for items in SIZES {
        let script = form.script(rt.alloc(), items)?;
        let rounds = ITEMS
            .checked_div(items)
            .unwrap_or(0)
            .min(plan.most_rounds)
            .max(10);
        let Some(figures) = measure(rt, subject, &script, rounds)? else {
            return println!(rt; "{}: {}", form.name, plan.unread);
        };
        print_line(rt, form, script.len(), &figures)?;
        match small {
            None => small = Some(figures),
            Some(least) => println!(rt;
                "  a token: {} times that of {SMALL} items",
                ratio(&least, &figures)
            )?,
        }
    }
    Ok(())
}

/// Prints the figures of each form, in nanoseconds.
pub fn print_forms<S: Subject>(
    rt: &(impl Clock + Print + Alloc<A = Global>),
    subject: &mut S,
    plan: Plan,
    forms: &[Form],
) -> io::Result<()> {
    for form in forms {
        print_form(rt, subject, plan, form)?;
    }
    Ok(())
}

/// Reads a small script of each form, and prints how many tokens it has.
pub fn count_tokens<S: Subject>(
    rt: &(impl Clock + Print + Alloc<A = Global>),
    subject: &mut S,
    forms: &[Form],
) -> io::Result<()> {
    for form in forms {
        let script = form.script(rt.alloc(), SMALL)?;
        let tokens = measure(rt, subject, &script, 1)?.map_or(0, |figures| figures.tokens);
        println!(rt; "{}: {tokens} tokens", form.name)?;
    }
    Ok(())
}
