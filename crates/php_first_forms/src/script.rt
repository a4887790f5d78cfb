// Statements and whole scripts.

ghost use Rattle.std.specs.Prelude.{◌≡◌, None, map};
ghost use Rattle.php_ast.specs.declaration.View.{class_word_view, item_view, script_view};
ghost use Rattle.php_ast.specs.expression.Tree.{assign, by_value};
ghost use Rattle.php_ast.specs.expression.View.{spot_view, view};
ghost use Rattle.php_ast.specs.statement.View.{statement_view};
ghost use Rattle.php_first_forms.specs.Forms as spec;
ghost use Rattle.php_first_forms.specs.Links.{with_item, with_part};
ghost use Rattle.php_first_forms.specs.Noted.{noted};
ghost use Rattle.php_places.specs.Over.{over};

use crate::name::left_in_name;
use crate::sum::{left_in_sum, or_else};
use php_ast::{Assign, ClassModifier, Expr, Script, ScriptItem, Spot, Stmt};

/// The first token of the first form that doesn't run, of a part of an `echo`. A node with an empty list is the node inside it.
fn left_in_part(e: &Expr) -> Option<Spot>
    ensures { noted result ≡ spec.left_in_part (view e.now) }
{
    match e {
        Expr::Str(_, _) => None,
        Expr::Chain(inner, suffixes) => {
            if suffixes.as_slice().is_empty() {
                left_in_part(inner.get())
            } else {
                left_in_sum(e)
            }
        }
        Expr::Run(inner, links) => {
            if links.as_slice().is_empty() {
                left_in_part(inner.get())
            } else {
                left_in_sum(e)
            }
        }
        _ => left_in_sum(e),
    }
}

fn left_in_parts(parts: &[Expr]) -> Option<Spot>
    ensures { noted result ≡ over with_part (map view parts.now) None }
{
    let mut first = None;
    for part in parts {
        first = or_else(first, left_in_part(part));
    }
    first
}

/// Of what is assigned by a statement that begins at a spot.
fn left_in_target(spot: Spot, e: &Expr) -> Option<Spot>
    ensures { noted result ≡ spec.left_in_target (spot_view spot) (view e.now) }
{
    match e {
        Expr::Variable(name) => left_in_name(name),
        Expr::Chain(inner, suffixes) => {
            if suffixes.as_slice().is_empty() {
                left_in_target(spot, inner.get())
            } else {
                Some(spot)
            }
        }
        Expr::Run(inner, links) => {
            if links.as_slice().is_empty() {
                left_in_target(spot, inner.get())
            } else {
                Some(spot)
            }
        }
        _ => Some(spot),
    }
}

fn left_in_set(spot: Spot, op: Assign, l: &Expr, r: &Expr) -> Option<Spot>
    ensures { noted result ≡ spec.left_in_assignment (spot_view spot) (assign (by_value op) (view l.now) (view r.now)) }
{
    match op {
        Assign::Plain => or_else(left_in_target(spot, l), left_in_sum(r)),
        Assign::Power
        | Assign::Times
        | Assign::Divided
        | Assign::Remainder
        | Assign::Plus
        | Assign::Minus
        | Assign::Concatenated
        | Assign::ShiftedLeft
        | Assign::ShiftedRight
        | Assign::BitAnd
        | Assign::BitXor
        | Assign::BitOr => Some(spot),
    }
}

/// Of an expression that is a statement, which begins at a spot.
fn left_in_assignment(spot: Spot, e: &Expr) -> Option<Spot>
    ensures { noted result ≡ spec.left_in_assignment (spot_view spot) (view e.now) }
{
    match e {
        Expr::Assign(op, l, r) => left_in_set(spot, *op, l.get(), r.get()),
        Expr::Chain(inner, suffixes) => {
            if suffixes.as_slice().is_empty() {
                left_in_assignment(spot, inner.get())
            } else {
                Some(spot)
            }
        }
        Expr::Run(inner, links) => {
            if links.as_slice().is_empty() {
                left_in_assignment(spot, inner.get())
            } else {
                Some(spot)
            }
        }
        _ => Some(spot),
    }
}

fn left_in_statement(s: &Stmt) -> Option<Spot>
    ensures { noted result ≡ spec.left_in_statement (statement_view s.now) }
{
    match s {
        Stmt::Empty(_) => None,
        Stmt::Inline(_, _) => None,
        Stmt::Expression(spot, e) => left_in_assignment(*spot, e),
        Stmt::Echo(_, parts) => left_in_parts(parts.as_slice()),
        Stmt::Block(spot, _) => Some(*spot),
        Stmt::Global(spot, _) => Some(*spot),
        Stmt::Static(spot, _) => Some(*spot),
        Stmt::Unset(spot, _) => Some(*spot),
        Stmt::Const(spot, _) => Some(*spot),
        Stmt::Return(spot, _) => Some(*spot),
        Stmt::Throw(spot, _) => Some(*spot),
        Stmt::Break(spot, _) => Some(*spot),
        Stmt::Continue(spot, _) => Some(*spot),
        Stmt::If(spot, _, _, _, _) => Some(*spot),
        Stmt::IfColon(spot, _, _, _, _) => Some(*spot),
        Stmt::While(spot, _, _) => Some(*spot),
        Stmt::DoWhile(spot, _, _) => Some(*spot),
        Stmt::For(spot, _, _) => Some(*spot),
        Stmt::Foreach(spot, _, _) => Some(*spot),
        Stmt::Switch(spot, _, _, _) => Some(*spot),
        Stmt::Try(spot, _, _, _) => Some(*spot),
        Stmt::Declare(spot, _, _) => Some(*spot),
    }
}

/// The first of the words before `class`, or else that.
fn first_word(spot: Spot, words: &[(Spot, ClassModifier)]) -> Spot
    ensures { spot_view result ≡ spec.first_word (spot_view spot) (map class_word_view words.now) }
{
    match words {
        [] => spot,
        [(first, _), ..] => *first,
    }
}

fn left_in_item(item: &ScriptItem) -> Option<Spot>
    ensures { noted result ≡ spec.left_in_item (item_view item.now) }
{
    match item {
        ScriptItem::Statement(s) => left_in_statement(s),
        ScriptItem::Function(function) => Some(function.spot),
        ScriptItem::Class(class) => Some(first_word(class.spot, class.modifiers.as_slice())),
        ScriptItem::Interface(interface) => Some(interface.spot),
        ScriptItem::Trait(item) => Some(item.spot),
    }
}

fn left_in_items(items: &[ScriptItem]) -> Option<Spot>
    ensures { noted result ≡ over with_item (map item_view items.now) None }
{
    let mut first = None;
    for item in items {
        first = or_else(first, left_in_item(item));
    }
    first
}

/// The first token of the first form of a script that doesn't run today. `None` where each form runs.
pub fn first_left_out(script: &Script) -> Option<Spot>
    ensures { noted result ≡ spec.first_left_out (script_view script.now) }
{
    left_in_items(script.items.as_slice())
}
