// What is measured.

use crate::texts::LONGEST;
use php_lex::{Tokens, lex};
use std::alloc::{Alloc, Global};
use std::io;
use std::time::{Clock, Instant};

/// A parser that is measured. It keeps what it read until it lets go of that.
pub trait Subject {
    /// Reads these tokens once; whether they could be read.
    fn parse(&mut self, alloc: Global, tokens: &Tokens) -> bool;

    /// Lets go of what was read.
    fn let_go(&mut self);

    /// How many tokens were read, of so many; none where some that matter are left.
    fn tokens_read(&self, count: usize) -> Option<usize>;
}

/// Nanoseconds that each part of reading one script took: the least of several rounds.
#[derive(Clone, Copy)]
pub(crate) struct Figures {
    pub(crate) tokens: u64,
    pub(crate) lexing: u64,
    pub(crate) parsing: u64,
    /// To let go of the tree.
    pub(crate) dropping: u64,
}

fn nanoseconds(rt: &impl Clock, start: &Instant) -> io::Result<u64> {
    let time = start.elapsed(rt)?;
    Ok(
        time.as_secs()
            .saturating_mul(1_000_000_000)
            .saturating_add(u64::from(time.subsec_nanos())),
    )
}

/// Parses these tokens once; none where they aren't what the subject reads.
fn parsed<S: Subject>(
    rt: &(impl Clock + Alloc<A = Global>),
    subject: &mut S,
    tokens: &Tokens,
    lexing: u64,
) -> io::Result<Option<Figures>> {
    let start = Instant::now(rt)?;
    let is_read = subject.parse(rt.alloc(), tokens);
    let parsing = nanoseconds(rt, &start)?;
    if !is_read {
        return Ok(None);
    }
    let start = Instant::now(rt)?;
    subject.let_go();
    let dropping = nanoseconds(rt, &start)?;
    match subject.tokens_read(tokens.len()) {
        Some(count) => Ok(Some(Figures {
            tokens: count as u64,
            lexing,
            parsing,
            dropping,
        })),
        None => Ok(None),
    }
}

fn read<S: Subject>(
    rt: &(impl Clock + Alloc<A = Global>),
    subject: &mut S,
    script: &[u8],
) -> io::Result<Option<Figures>> {
    if LONGEST < script.len() {
        return Ok(None);
    }
    let start = Instant::now(rt)?;
    let answer = lex(rt.alloc(), script);
    let lexing = nanoseconds(rt, &start)?;
    match answer {
        Ok(tokens) => parsed(rt, subject, &tokens, lexing),
        Err(_) => Ok(None),
    }
}

/// Reads a script so many times; none where it isn't what the subject reads.
pub(crate) fn measure<S: Subject>(
    rt: &(impl Clock + Alloc<A = Global>),
    subject: &mut S,
    script: &[u8],
    rounds: usize,
) -> io::Result<Option<Figures>> {
    let mut least = Figures {
        tokens: 0,
        lexing: u64::MAX,
        parsing: u64::MAX,
        dropping: u64::MAX,
    };
    for _ in 0..rounds {
        let Some(figures) = read(rt, subject, script)? else {
            return Ok(None);
        };
        least = Figures {
            tokens: figures.tokens,
            lexing: least.lexing.min(figures.lexing),
            parsing: least.parsing.min(figures.parsing),
            dropping: least.dropping.min(figures.dropping),
        };
    }
    Ok(Some(least))
}
