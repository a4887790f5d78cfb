// Measures the lexer: milliseconds for about 1 MB of each of three scripts. Without words on the command
// line it goes over a small script of each kind and prints how many tokens they have.
#![tactic(auto)]

use php_lex::lex;
use std::alloc::{Alloc, Global};
use std::time::{Clock, Instant};
use std::{env, io};

const LARGE: usize = 1_048_000;

const SMALL: usize = 1_000;

const ROUNDS: u32 = 10;

const ASSIGNMENTS: &[u8] = b"$a=1;\n";

const CODE: &[u8] =
    b"    if ($count > 10) {\n        echo name($x, 'text') . \"a $b c\";\n    } else {\n        return $items[$key]->size ?? null;\n    }\n";

const INLINE: &[u8] = b"<p>Some text that is no script at all.</p>\n";

/// A script of at most `len` bytes: a beginning, and the same lines again and again.
fn script(alloc: Global, begin: &[u8], lines: &[u8], len: usize) -> io::Result<Vec<u8>> {
    let mut script = Vec::new(alloc);
    script.extend_from_slice(begin)?;
    for _ in 0..len {
        if len.saturating_sub(script.len()) < lines.len() {
            break;
        }
        script.extend_from_slice(lines)?;
    }
    Ok(script)
}

fn count(alloc: Global, script: &[u8]) -> usize {
    if 1_048_576 < script.len() {
        return 0;
    }
    match lex(alloc, script) {
        Ok(tokens) => tokens.len(),
        Err(_) => 0,
    }
}

fn measure(
    rt: &(impl Clock + Print + Alloc<A = Global>),
    name: &str,
    script: &[u8],
    rounds: u32,
) -> io::Result<()> {
    let mut best = u64::MAX;
    let mut tokens = 0;
    for _ in 0..rounds {
        let start = Instant::now(rt)?;
        tokens = count(rt.alloc(), script);
        let time = start.elapsed(rt)?;
        let micros = time
            .as_secs()
            .saturating_mul(1_000_000)
            .saturating_add(u64::from(time.subsec_nanos()) / 1000);
        best = best.min(micros);
    }
    println!(rt;
        "{name}: {} bytes, {tokens} tokens, {best} microseconds",
        script.len()
    )
}

fn main(rt: HostRuntime) -> io::Result<()> {
    let begin = b"<?php\n";
    let words = env::args(&rt)?.count();
    if words < 2 {
        let assignments = script(rt.alloc(), begin, ASSIGNMENTS, SMALL)?;
        let code = script(rt.alloc(), begin, CODE, SMALL)?;
        let inline = script(rt.alloc(), b"", INLINE, SMALL)?;
        println!(rt;
            "tokens: {} {} {}",
            count(rt.alloc(), &assignments),
            count(rt.alloc(), &code),
            count(rt.alloc(), &inline)
        )?;
        return Ok(());
    }
    // A second word asks for one round, as a profiler wants it.
    let rounds = if words == 2 { ROUNDS } else { 1 };
    let assignments = script(rt.alloc(), begin, ASSIGNMENTS, LARGE)?;
    measure(&rt, "assignments", &assignments, rounds)?;
    let code = script(rt.alloc(), begin, CODE, LARGE)?;
    measure(&rt, "code", &code, rounds)?;
    let inline = script(rt.alloc(), b"", INLINE, LARGE)?;
    measure(&rt, "inline", &inline, rounds)
}
