// Measures the parser of scripts: nanoseconds a token, for scripts of several forms and sizes, beside the lexer and the end
// of the tree. Without words on the command line it reads a small script of each form and prints how many tokens it has; with
// the word `ordinary` it prints a script of ordinary code, as long as a script may be, for another parser to be measured by.
#![tactic(auto)]

mod texts;

use php_ast::{Script, ScriptItem};
use php_bench_texts::{LONGEST, Plan, Subject, count_tokens, print_forms};
use php_lex::Tokens;
use php_parse_script::parse;
use std::alloc::{Alloc, Global};
use std::mem::size_of;
use std::time::Clock;
use std::{env, io};
use texts::{forms, ordinary};

/// The parser of scripts, with what it read.
#[derive(Drop)]
struct Scripts {
    tree: Option<Script>,
}

impl Subject for Scripts {
    fn parse(&mut self, alloc: Global, tokens: &Tokens) -> bool {
        match parse(alloc, tokens) {
            Ok(tree) => {
                self.tree = Some(tree);
                true
            }
            Err(_) => false,
        }
    }

    fn let_go(&mut self) {
        self.tree = None;
    }

    fn tokens_read(&self, count: usize) -> Option<usize> {
        Some(count)
    }
}

const PLAN: Plan = Plan {
    unread: "no script",
    most_rounds: 100,
};

fn measured(
    rt: &(impl Clock + Print + Alloc<A = Global>),
    scripts: &mut Scripts,
) -> io::Result<()> {
    println!(rt;
        "an item has {} bytes; times in nanoseconds",
        size_of::<ScriptItem>()
    )?;
    print_forms(rt, scripts, PLAN, &forms())
}

fn print_ordinary(rt: &(impl Print + Alloc<A = Global>)) -> io::Result<()> {
    let script = ordinary().script(rt.alloc(), LONGEST)?;
    for byte in script.as_slice() {
        print!(rt; "{}", *byte as char)?;
    }
    Ok(())
}

fn main(rt: HostRuntime) -> io::Result<()> {
    let mut scripts = Scripts { tree: None };
    match env::args(&rt)?.nth(1) {
        None => count_tokens(&rt, &mut scripts, &forms()),
        Some(word) if word.as_str() == "ordinary" => print_ordinary(&rt),
        Some(_) => measured(&rt, &mut scripts),
    }
}
