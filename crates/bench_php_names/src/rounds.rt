// What is measured.

use php_ast::Script;
use php_bench_texts::LONGEST;
use php_lex::{Tokens, lex};
use php_names::check;
use php_parse_script::parse;
use std::alloc::{Alloc, Global};
use std::io;
use std::time::{Clock, Instant};

/// Nanoseconds that each part took of reading and checking one script: the least of several rounds.
#[derive(Clone, Copy)]
pub struct Figures {
    pub tokens: u64,
    pub lexing: u64,
    pub parsing: u64,
    pub checking: u64,
}

fn nanoseconds(rt: &impl Clock, start: &Instant) -> io::Result<u64> {
    let time = start.elapsed(rt)?;
    Ok(
        time.as_secs()
            .saturating_mul(1_000_000_000)
            .saturating_add(u64::from(time.subsec_nanos())),
    )
}

/// Checks a script once; none where it isn't legal.
fn checked(rt: &(impl Clock + Alloc<A = Global>), script: Script) -> io::Result<Option<u64>> {
    let start = Instant::now(rt)?;
    let answer = check(rt.alloc(), script);
    let checking = nanoseconds(rt, &start)?;
    Ok(answer.ok().map(|_| checking))
}

/// Parses these tokens once, and checks what they spell; none where that is no legal script.
fn parsed(
    rt: &(impl Clock + Alloc<A = Global>),
    tokens: &Tokens,
    lexing: u64,
) -> io::Result<Option<Figures>> {
    let start = Instant::now(rt)?;
    let answer = parse(rt.alloc(), tokens);
    let parsing = nanoseconds(rt, &start)?;
    let Ok(script) = answer else {
        return Ok(None);
    };
    Ok(checked(rt, script)?.map(|checking| Figures {
        tokens: tokens.len() as u64,
        lexing,
        parsing,
        checking,
    }))
}

fn read(rt: &(impl Clock + Alloc<A = Global>), script: &[u8]) -> io::Result<Option<Figures>> {
    if LONGEST < script.len() {
        return Ok(None);
    }
    let start = Instant::now(rt)?;
    let answer = lex(rt.alloc(), script);
    let lexing = nanoseconds(rt, &start)?;
    match answer {
        Ok(tokens) => parsed(rt, &tokens, lexing),
        Err(_) => Ok(None),
    }
}

/// Reads and checks a script so many times; none where it is no legal script.
pub fn measure(
    rt: &(impl Clock + Alloc<A = Global>),
    script: &[u8],
    rounds: usize,
) -> io::Result<Option<Figures>> {
    let mut least = Figures {
        tokens: 0,
        lexing: u64::MAX,
        parsing: u64::MAX,
        checking: u64::MAX,
    };
    for _ in 0..rounds {
        let Some(figures) = read(rt, script)? else {
            return Ok(None);
        };
        least = Figures {
            tokens: figures.tokens,
            lexing: least.lexing.min(figures.lexing),
            parsing: least.parsing.min(figures.parsing),
            checking: least.checking.min(figures.checking),
        };
    }
    Ok(Some(least))
}
