// What is laid out from small trees.

use crate::laid::shown;
use php_ast::{Binary, Expr, Piece, Spot};
use php_base::NoMemory;
use php_print::{Printed, lay_out, print_expr};
use php_print_callers::{count_tokens, print_binary, print_line, print_page};
use php_value::Text;
use sqlite_items::Items;
use std::alloc::Global;

const AT: Spot = Spot { place: 0, line: 1 };

fn template(alloc: Global) -> Result<Vec<Printed>, NoMemory> {
    let pieces = vec![in alloc; Piece::Part(Expr::Int(AT, 1))]?;
    print_expr(alloc, &Expr::Template(AT, Items::from_vec(pieces)))
}

fn power(alloc: Global) -> Result<Vec<Printed>, NoMemory> {
    print_binary(alloc, Binary::Power, Expr::Int(AT, 2), Expr::Int(AT, -3))
}

fn page(alloc: Global) -> Result<Vec<Printed>, NoMemory> {
    print_page(alloc, AT, Text::from_bytes(alloc, b"<p>")?)
}

fn count(alloc: Global, e: &Expr) -> Result<String, NoMemory> {
    let number = count_tokens(alloc, e)?;
    Ok(format!(in alloc; "{number}")?)
}

fn tokens(alloc: Global, asked: &str) -> Result<Vec<Printed>, NoMemory> {
    match asked {
        "tree template" => template(alloc),
        "tree power" => power(alloc),
        "tree statement" => print_line(alloc, AT, Expr::Exit(AT)),
        "tree page" => page(alloc),
        _ => Ok(Vec::new(alloc)),
    }
}

/// The tokens of the tree of a name, or how many they are.
pub(crate) fn tree_text(alloc: Global, asked: &str) -> Result<String, NoMemory> {
    if asked == "count exit()" {
        return count(alloc, &Expr::ExitEmpty(AT));
    }
    let tokens = tokens(alloc, asked)?;
    let text = lay_out(alloc, tokens.as_slice())?;
    shown(alloc, text.as_slice())
}
