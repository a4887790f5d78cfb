// The names of a script's variables, in the order in which they first occur.
ghost use Rattle.std.specs.Prelude.{◌≡◌, map, OnOk};
ghost use Rattle.php_ast.specs.expression.Parts.{link_with, piece_with};
ghost use Rattle.php_ast.specs.expression.Tree.{no_piece, none};
ghost use Rattle.php_ast.specs.expression.View.{pieces_from, values_from, view, with_links};
ghost use Rattle.php_ast.specs.statement.View.{list_view, sequence, statement_view};
ghost use Rattle.php_ast.specs.declaration.View.{item_view};
ghost use Rattle.php_meaning.specs.Slots.{
  names_of,
  names_of_item,
  names_of_items,
  names_of_pieces,
  names_of_script,
  names_of_statement,
  names_of_statements,
};
ghost use Rattle.php_compile.specs.Parts.{link_names, piece_names};

use crate::slots::add_name;
use indexmap::IndexSet;
use php_ast::{Expr, Link, Piece, ScriptItem, Stmt};
use php_base::NoMemory;
use php_value::Text;

#[cycle(names_of_expressions)]
pub fn name_expr(names: &mut IndexSet<Text>, e: &Expr) -> Result<(), NoMemory>
    ensures { OnOk result (names.new.keys ≡ names_of names.old.keys (view e.now)) }
{
    match e {
        Expr::Variable(name) => add_name(names, &name.text),
        Expr::Template(_, pieces) => name_pieces(names, pieces.as_slice()),
        Expr::Group(_, inside) => name_expr(names, inside.get()),
        Expr::Empty(_, inside) => name_expr(names, inside.get()),
        Expr::ExitWith(_, inside) => name_expr(names, inside.get()),
        Expr::Chain(first, _) => name_expr(names, first.get()),
        Expr::Prefix(_, _, operand) => name_expr(names, operand.get()),
        Expr::Run(first, links) => name_run(names, first.get(), links.as_slice()),
        Expr::Binary(_, left, right) => name_pair(names, left.get(), right.get()),
        Expr::Assign(_, target, value) => name_pair(names, target.get(), value.get()),
        Expr::AssignReference(target, source) => name_pair(names, target.get(), source.get()),
        Expr::Int(_, _) => Ok(()),
        Expr::Str(_, _) => Ok(()),
        Expr::Name(_) => Ok(()),
        Expr::Magic(_, _) => Ok(()),
        Expr::StaticMember(_, _) => Ok(()),
        Expr::Array(_, _, _) => Ok(()),
        Expr::IsSet(_, _) => Ok(()),
        Expr::Exit(_) => Ok(()),
        Expr::ExitEmpty(_) => Ok(()),
        Expr::New(_, _) => Ok(()),
        Expr::NewWith(_, _, _) => Ok(()),
        Expr::Count(_, _) => Ok(()),
        Expr::InstanceOf(_, _) => Ok(()),
        Expr::InstanceOfStatic(_, _) => Ok(()),
        Expr::YieldNothing(_) => Ok(()),
        Expr::Yield(_, _) => Ok(()),
        Expr::YieldPair(_, _, _) => Ok(()),
    }
}

#[cycle(names_of_expressions)]
fn name_pair(names: &mut IndexSet<Text>, left: &Expr, right: &Expr) -> Result<(), NoMemory>
    ensures { OnOk result (names.new.keys ≡ names_of (names_of names.old.keys (view left.now))
        (view right.now)) }
{
    name_expr(names, left)?;
    name_expr(names, right)
}

#[cycle(names_of_expressions)]
fn name_pieces(names: &mut IndexSet<Text>, pieces: &[Piece<Expr>]) -> Result<(), NoMemory>
    ensures { OnOk result (names.new.keys ≡ names_of_pieces names.old.keys
        (pieces_from no_piece (map (piece_with view) pieces.now))) }
{
    for piece in pieces {
        name_piece(names, piece)?;
    }
    Ok(())
}

#[cycle(names_of_expressions)]
fn name_piece(names: &mut IndexSet<Text>, piece: &Piece<Expr>) -> Result<(), NoMemory>
    ensures { OnOk result (names.new.keys ≡ piece_names names.old.keys (piece_with view piece.now)) }
{
    match piece {
        Piece::Bytes(_) => Ok(()),
        Piece::Part(e) => name_expr(names, e),
    }
}

#[cycle(names_of_expressions)]
fn name_run(names: &mut IndexSet<Text>, first: &Expr, links: &[Link<Expr>]) -> Result<(), NoMemory>
    ensures { OnOk result (names.new.keys ≡ names_of names.old.keys
        (with_links (view first.now) (map (link_with view) links.now))) }
{
    name_expr(names, first)?;
    for link in links {
        name_link(names, link)?;
    }
    Ok(())
}

#[cycle(names_of_expressions)]
fn name_link(names: &mut IndexSet<Text>, link: &Link<Expr>) -> Result<(), NoMemory>
    ensures { OnOk result (names.new.keys ≡ link_names names.old.keys (link_with view link.now)) }
{
    match link {
        Link::Operator(_, right) => name_expr(names, right),
        Link::Choice(_, _) => Ok(()),
        Link::ShortChoice(_) => Ok(()),
    }
}

fn name_values(names: &mut IndexSet<Text>, values: &[Expr]) -> Result<(), NoMemory>
    ensures { OnOk result (names.new.keys ≡ names_of_items names.old.keys
        (values_from none (map view values.now))) }
{
    for value in values {
        name_expr(names, value)?;
    }
    Ok(())
}

#[cycle(names_of_statements)]
fn name_statement(names: &mut IndexSet<Text>, s: &Stmt) -> Result<(), NoMemory>
    ensures { OnOk result (names.new.keys ≡ names_of_statement names.old.keys
        (statement_view s.now)) }
{
    match s {
        Stmt::Block(_, body) => name_statements(names, body.as_slice()),
        Stmt::Expression(_, e) => name_expr(names, e),
        Stmt::Echo(_, values) => name_values(names, values.as_slice()),
        Stmt::Empty(_) => Ok(()),
        Stmt::Inline(_, _) => Ok(()),
        Stmt::Global(_, _) => Ok(()),
        Stmt::Static(_, _) => Ok(()),
        Stmt::Unset(_, _) => Ok(()),
        Stmt::Const(_, _) => Ok(()),
        Stmt::Return(_, _) => Ok(()),
        Stmt::Throw(_, _) => Ok(()),
        Stmt::Break(_, _) => Ok(()),
        Stmt::Continue(_, _) => Ok(()),
        Stmt::If(_, _, _, _, _) => Ok(()),
        Stmt::IfColon(_, _, _, _, _) => Ok(()),
        Stmt::While(_, _, _) => Ok(()),
        Stmt::DoWhile(_, _, _) => Ok(()),
        Stmt::For(_, _, _) => Ok(()),
        Stmt::Foreach(_, _, _) => Ok(()),
        Stmt::Switch(_, _, _, _) => Ok(()),
        Stmt::Try(_, _, _, _) => Ok(()),
        Stmt::Declare(_, _, _) => Ok(()),
    }
}

#[cycle(names_of_statements)]
fn name_statements(names: &mut IndexSet<Text>, body: &[Stmt]) -> Result<(), NoMemory>
    ensures { OnOk result (names.new.keys ≡ names_of_statements names.old.keys
        (list_view (map statement_view body.now))) }
{
    for s in body {
        name_statement(names, s)?;
    }
    Ok(())
}

fn name_item(names: &mut IndexSet<Text>, item: &ScriptItem) -> Result<(), NoMemory>
    ensures { OnOk result (names.new.keys ≡ names_of_item names.old.keys (item_view item.now)) }
{
    match item {
        ScriptItem::Statement(s) => name_statement(names, s),
        ScriptItem::Function(_) => Ok(()),
        ScriptItem::Class(_) => Ok(()),
        ScriptItem::Interface(_) => Ok(()),
        ScriptItem::Trait(_) => Ok(()),
    }
}

/// Adds the names of a script's variables.
pub fn name_items(names: &mut IndexSet<Text>, items: &[ScriptItem]) -> Result<(), NoMemory>
    ensures { OnOk result (names.new.keys ≡ names_of_script names.old.keys
        (sequence item_view items.now)) }
{
    for item in items {
        name_item(names, item)?;
    }
    Ok(())
}
