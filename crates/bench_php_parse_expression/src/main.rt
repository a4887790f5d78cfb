// Measures the parser of expressions: nanoseconds a token, for scripts of several forms and sizes, beside the lexer
// and the end of the tree. Without words on the command line it reads a small script of each form and prints how
// many tokens the expressions have.
#![tactic(auto)]

mod texts;

use php_ast::Expr;
use php_bench_texts::{Plan, Subject, count_tokens, print_forms};
use php_lex::Tokens;
use php_parse_expression::parse_expr;
use std::alloc::{Alloc, Global};
use std::mem::size_of;
use std::time::Clock;
use std::{env, io};
use texts::forms;

/// The parser of expressions, with what it read and the place behind that.
#[derive(Drop)]
struct Expressions {
    tree: Option<Expr>,
    next: usize,
}

impl Subject for Expressions {
    fn parse(&mut self, alloc: Global, tokens: &Tokens) -> bool {
        match parse_expr(alloc, tokens, 0, 0) {
            Ok((tree, next)) => {
                self.tree = Some(tree);
                self.next = next;
                true
            }
            Err(_) => false,
        }
    }

    fn let_go(&mut self) {
        self.tree = None;
    }

    // A semicolon stands behind the expression, and nothing else.
    fn tokens_read(&self, count: usize) -> Option<usize> {
        if count.checked_sub(1) != Some(self.next) {
            return None;
        }
        Some(self.next)
    }
}

const PLAN: Plan = Plan {
    unread: "no expression",
    most_rounds: usize::MAX,
};

/// Prints the figures of each form, or else how many tokens a small script of each has.
fn report(rt: &(impl Clock + Print + Alloc<A = Global>), is_measured: bool) -> io::Result<()> {
    let mut expressions = Expressions {
        tree: None,
        next: 0,
    };
    if is_measured {
        print_forms(rt, &mut expressions, PLAN, &forms())
    } else {
        count_tokens(rt, &mut expressions, &forms())
    }
}

fn main(rt: HostRuntime) -> io::Result<()> {
    let is_measured = env::args(&rt)?.count() > 1;
    if is_measured {
        println!(rt;
            "an expression has {} bytes; times in nanoseconds",
            size_of::<Expr>()
        )?;
    }
    report(&rt, is_measured)
}
