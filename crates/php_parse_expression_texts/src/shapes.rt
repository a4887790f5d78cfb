// What the printer shows of trees that no parser gives, so that an answer is met by one tree alone.

use crate::printer::print_last;
use php_ast::{Binary, Class, Expr, Link, Name, Spot, Suffix};
use php_base::NoMemory;
use php_value::Text;
use sqlite_items::{Boxed, Items};
use std::alloc::{AllocError, Global};

const AT: Spot = Spot { place: 0, line: 1 };

fn chain(alloc: Global, head: Expr) -> Result<Expr, AllocError> {
    let suffixes = vec![in alloc; Suffix::Append]?;
    Ok(Expr::Chain(Boxed::new(alloc, head)?, Items::from_vec(suffixes)))
}

fn run(alloc: Global, first: Expr, op: Binary) -> Result<Expr, AllocError> {
    let links = vec![in alloc; Link::Operator(op, Expr::Int(AT, 2))]?;
    Ok(Expr::Run(Boxed::new(alloc, first)?, Items::from_vec(links)))
}

fn chain_in_a_chain(alloc: Global) -> Result<Expr, AllocError> {
    let inner = chain(alloc, Expr::Int(AT, 1))?;
    chain(alloc, inner)
}

fn creation_with_a_suffix(alloc: Global) -> Result<Expr, NoMemory> {
    let name = Name {
        spot: AT,
        text: Text::from_bytes(alloc, b"A")?,
    };
    let class = Boxed::new(alloc, Class::Variable(name, Items::new(alloc)))?;
    let creation = Expr::New(AT, class);
    Ok(chain(alloc, creation)?)
}

fn run_in_a_run(alloc: Global) -> Result<Expr, AllocError> {
    let inner = run(alloc, Expr::Int(AT, 1), Binary::Plus)?;
    run(alloc, inner, Binary::Plus)
}

fn power_in_a_run(alloc: Global) -> Result<Expr, AllocError> {
    run(alloc, Expr::Int(AT, 1), Binary::Power)
}

fn shown_chain(alloc: Global) -> Result<String, AllocError> {
    print_last(alloc, chain_in_a_chain(alloc)?, 3)
}

fn shown_creation(alloc: Global) -> Result<String, AllocError> {
    match creation_with_a_suffix(alloc) {
        Ok(creation) => print_last(alloc, creation, 3),
        Err(NoMemory) => format!(in alloc; "no memory"),
    }
}

fn shown_run(alloc: Global, depth: usize) -> Result<String, AllocError> {
    print_last(alloc, run_in_a_run(alloc)?, depth)
}

fn shown_power(alloc: Global) -> Result<String, AllocError> {
    print_last(alloc, power_in_a_run(alloc)?, 2)
}

/// What is shown of the tree with a name.
pub(crate) fn shown_shape(alloc: Global, name: &str) -> Result<String, AllocError> {
    match name {
        "a chain in a chain" => shown_chain(alloc),
        "a creation with a suffix" => shown_creation(alloc),
        "a run in a run" => shown_run(alloc, 3),
        "a run in a run, cut off" => shown_run(alloc, 2),
        "a power in a run" => shown_power(alloc),
        _ => format!(in alloc; "no shape"),
    }
}
