// Measures the static checks beside the lexer and the parser of the same text in the same run: nanoseconds a token, for scripts of
// several forms, each at half and at the whole of a size. Without words on the command line it reads and checks a small script of
// each form and prints how many tokens it has.
#![tactic(auto)]

mod rounds;
mod texts;

use rounds::{Figures, measure};
use std::alloc::{Alloc, Global};
use std::time::Clock;
use std::{env, fmt, io};
use texts::{Form, forms};

/// How many links a small script has.
const SMALL: usize = 100;

/// How often each script is read.
const ROUNDS: usize = 10;

/// Tenths, written with a point.
#[derive(Clone, Copy)]
struct Tenths(u64);

impl fmt::Display for Tenths {
    fn fmt<W: fmt::Write>(&self, f: &mut fmt::Formatter<W>) -> fmt::Result {
        write!(f, "{}.{}", self.0 / 10, self.0 % 10)
    }
}

fn ratio(above: u64, below: u64) -> Tenths {
    Tenths(above.saturating_mul(10).checked_div(below).unwrap_or(0))
}

fn hundredths(above: u64, below: u64) -> u64 {
    above.saturating_mul(100).checked_div(below).unwrap_or(0)
}

fn print_line(rt: &impl Print, form: &Form, bytes: usize, figures: &Figures) -> io::Result<()> {
    println!(rt;
        "{}: {bytes} bytes, {} tokens; a token: lex {}, parse {}, check {}; the check is {} hundredths of the parsing",
        form.name,
        figures.tokens,
        ratio(figures.lexing, figures.tokens),
        ratio(figures.parsing, figures.tokens),
        ratio(figures.checking, figures.tokens),
        hundredths(figures.checking, figures.parsing)
    )
}

/// Checks a script of these bytes.
fn print_script(
    rt: &(impl Clock + Print + Alloc<A = Global>),
    form: &Form,
    script: &[u8],
) -> io::Result<Option<Figures>> {
    let figures = measure(rt, script, ROUNDS)?;
    match &figures {
        Some(figures) => print_line(rt, form, script.len(), figures)?,
        None => println!(rt; "{}: no legal script", form.name)?,
    }
    Ok(figures)
}

/// Checks a script of half a size and one of the whole of it, and prints how the time grows.
fn print_form(rt: &(impl Clock + Print + Alloc<A = Global>), form: &Form) -> io::Result<()> {
    let half = form.script(rt.alloc(), form.most / 2)?;
    let whole = form.script(rt.alloc(), form.most)?;
    let Some(before) = print_script(rt, form, &half)? else {
        return Ok(());
    };
    let Some(after) = print_script(rt, form, &whole)? else {
        return Ok(());
    };
    println!(rt;
        "  {} times the tokens take {} times as long to check",
        ratio(after.tokens, before.tokens),
        ratio(after.checking, before.checking)
    )
}

fn count_tokens(rt: &(impl Clock + Print + Alloc<A = Global>)) -> io::Result<()> {
    for form in forms() {
        let script = form.script(rt.alloc(), SMALL)?;
        let tokens = measure(rt, &script, 1)?.map_or(0, |figures| figures.tokens);
        println!(rt; "{}: {tokens} tokens", form.name)?;
    }
    Ok(())
}

fn main(rt: HostRuntime) -> io::Result<()> {
    if env::args(&rt)?.nth(1).is_none() {
        return count_tokens(&rt);
    }
    println!(rt; "times in nanoseconds")?;
    for form in forms() {
        print_form(&rt, &form)?;
    }
    Ok(())
}
