// The names in expressions. A call of the walk goes on with parts of its tree, so it takes no more stack than the tree is nested.

ghost use Rattle.std.specs.Prelude.{◌≡◌, map, OnOk};
ghost use Rattle.php_ast.specs.expression.Parts.{argument_with, class_with, item_with, link_with, piece_with, step_with, suffix_with};
ghost use Rattle.php_ast.specs.expression.Tree.{from, no_piece, none};
ghost use Rattle.php_ast.specs.expression.View.{
  arguments_from,
  class_view,
  items_from,
  pieces_from,
  spot_view,
  steps_from,
  values_from,
  view,
  with_links,
  with_suffixes,
};
ghost use Rattle.php_ast.specs.statement.View.{optional};
ghost use Rattle.php_many_names.specs.Met as met;

use crate::names::{Names, meet_dollar, meet_member, meet_name, meet_word};
use php_ast::{Argument, Class, ClassStep, Expr, Item, Link, Name, Named, Piece, Suffix};
use php_base::NoMemory;

/// The names of an expression.
#[cycle(expressions)]
pub(crate) fn meet_expr(names: &mut Names, e: &Expr) -> Result<(), NoMemory>
    ensures { OnOk result (names.new ≡ met.met_tree names.old (view e.now)) }
{
    match e {
        Expr::Variable(name) => names.add_variable(name.spot, &name.text),
        Expr::Name(name) => names.add_name(name.spot, &name.text),
        Expr::StaticMember(_, member) => meet_member(names, member.get()),
        Expr::Template(_, pieces) => meet_pieces(names, pieces.as_slice()),
        Expr::Group(_, inside) => meet_expr(names, inside.get()),
        Expr::Array(_, _, items) => meet_items(names, items.as_slice()),
        Expr::IsSet(_, values) => meet_values(names, values.as_slice()),
        Expr::Empty(_, inside) => meet_expr(names, inside.get()),
        Expr::ExitWith(_, inside) => meet_expr(names, inside.get()),
        Expr::Chain(first, suffixes) => meet_chain(names, first.get(), suffixes.as_slice()),
        Expr::New(_, class) => meet_class(names, class.get()),
        Expr::NewWith(_, class, arguments) => {
            meet_new_with(names, class.get(), arguments.as_slice())
        }
        Expr::Prefix(_, _, operand) => meet_expr(names, operand.get()),
        Expr::Count(operand, _) => meet_expr(names, operand.get()),
        Expr::Run(first, links) => meet_run(names, first.get(), links.as_slice()),
        Expr::Binary(_, left, right) => meet_pair(names, left.get(), right.get()),
        Expr::InstanceOf(left, class) => meet_pair(names, left.get(), class.get()),
        Expr::InstanceOfStatic(left, _) => meet_expr(names, left.get()),
        Expr::Assign(_, target, value) => meet_pair(names, target.get(), value.get()),
        Expr::AssignReference(target, source) => meet_pair(names, target.get(), source.get()),
        Expr::Yield(_, value) => meet_expr(names, value.get()),
        Expr::YieldPair(_, key, value) => meet_pair(names, key.get(), value.get()),
        Expr::Int(_, _)
        | Expr::Str(_, _)
        | Expr::Exit(_)
        | Expr::ExitEmpty(_)
        | Expr::Magic(_, _)
        | Expr::YieldNothing(_) => Ok(()),
    }
}

#[cycle(expressions)]
fn meet_pair(names: &mut Names, left: &Expr, right: &Expr) -> Result<(), NoMemory>
    ensures { OnOk result (names.new ≡ met.met_tree (met.met_tree names.old (view left.now))
        (view right.now)) }
{
    meet_expr(names, left)?;
    meet_expr(names, right)
}

#[cycle(expressions)]
fn meet_pieces(names: &mut Names, pieces: &[Piece<Expr>]) -> Result<(), NoMemory>
    ensures { OnOk result (names.new ≡ met.met_pieces names.old
        (pieces_from no_piece (map (piece_with view) pieces.now))) }
{
    for piece in pieces {
        meet_piece(names, piece)?;
    }
    Ok(())
}

#[cycle(expressions)]
fn meet_piece(names: &mut Names, piece: &Piece<Expr>) -> Result<(), NoMemory>
    ensures { OnOk result (names.new ≡ met.met_piece names.old (piece_with view piece.now)) }
{
    match piece {
        Piece::Bytes(_) => Ok(()),
        Piece::Part(e) => meet_expr(names, e),
    }
}

// ---- lists

#[cycle(expressions)]
fn meet_items(names: &mut Names, items: &[Item<Expr>]) -> Result<(), NoMemory>
    ensures { OnOk result (names.new ≡ met.met_items names.old
        (items_from none (map (item_with view) items.now))) }
{
    for item in items {
        meet_item(names, item)?;
    }
    Ok(())
}

#[cycle(expressions)]
fn meet_item(names: &mut Names, item: &Item<Expr>) -> Result<(), NoMemory>
    ensures { OnOk result (names.new ≡ met.met_item names.old (item_with view item.now)) }
{
    match item {
        Item::Missing => Ok(()),
        Item::Value(e) => meet_expr(names, e),
        Item::Reference(e) => meet_expr(names, e),
        Item::Keyed(key, e) => meet_pair(names, key, e),
        Item::KeyedReference(key, e) => meet_pair(names, key, e),
    }
}

/// The names of expressions, one after the other.
#[cycle(expressions)]
pub(crate) fn meet_values(names: &mut Names, values: &[Expr]) -> Result<(), NoMemory>
    ensures { OnOk result (names.new ≡ met.met_items names.old
        (values_from none (map view values.now))) }
{
    for value in values {
        meet_expr(names, value)?;
    }
    Ok(())
}

#[cycle(expressions)]
fn meet_arguments(names: &mut Names, arguments: &[Argument<Expr>]) -> Result<(), NoMemory>
    ensures { OnOk result (names.new ≡ met.met_items names.old
        (arguments_from none (map (argument_with view) arguments.now))) }
{
    for argument in arguments {
        meet_argument(names, argument)?;
    }
    Ok(())
}

#[cycle(expressions)]
fn meet_argument(names: &mut Names, argument: &Argument<Expr>) -> Result<(), NoMemory>
    ensures { OnOk result (names.new ≡ met.met_argument names.old (argument_with view argument.now)) }
{
    match argument {
        Argument::Value(e) => meet_expr(names, e),
        Argument::Spread(e) => meet_expr(names, e),
    }
}

// ---- suffixes and runs

#[cycle(expressions)]
fn meet_chain(names: &mut Names, first: &Expr, suffixes: &[Suffix<Expr>]) -> Result<(), NoMemory>
    ensures { OnOk result (names.new ≡ met.met_tree names.old
        (with_suffixes (view first.now) (map (suffix_with view) suffixes.now))) }
{
    meet_expr(names, first)?;
    for suffix in suffixes {
        meet_suffix(names, suffix)?;
    }
    Ok(())
}

#[cycle(expressions)]
fn meet_suffix(names: &mut Names, suffix: &Suffix<Expr>) -> Result<(), NoMemory>
    ensures { OnOk result (names.new ≡ met.met_suffix names.old (suffix_with view suffix.now)) }
{
    match suffix {
        Suffix::Append => Ok(()),
        Suffix::Index(key) => meet_expr(names, key),
        Suffix::Property(Named::Word(word)) => meet_word(names, word),
        Suffix::Property(Named::Variable(name)) => meet_dollar(names, name),
        Suffix::Property(Named::Computed(key)) => meet_expr(names, key),
        Suffix::Member(member) => meet_member(names, member),
        Suffix::Call(arguments) => meet_arguments(names, arguments.as_slice()),
    }
}

#[cycle(expressions)]
fn meet_run(names: &mut Names, first: &Expr, links: &[Link<Expr>]) -> Result<(), NoMemory>
    ensures { OnOk result (names.new ≡ met.met_tree names.old
        (with_links (view first.now) (map (link_with view) links.now))) }
{
    meet_expr(names, first)?;
    for link in links {
        meet_link(names, link)?;
    }
    Ok(())
}

#[cycle(expressions)]
fn meet_link(names: &mut Names, link: &Link<Expr>) -> Result<(), NoMemory>
    ensures { OnOk result (names.new ≡ met.met_link names.old (link_with view link.now)) }
{
    match link {
        Link::Operator(_, right) => meet_expr(names, right),
        Link::Choice(middle, right) => meet_pair(names, middle, right),
        Link::ShortChoice(right) => meet_expr(names, right),
    }
}

// ---- new

#[cycle(expressions)]
fn meet_class(names: &mut Names, class: &Class<Expr>) -> Result<(), NoMemory>
    ensures { OnOk result (names.new ≡ met.met_class names.old (class_view (class_with view class.now))) }
{
    match class {
        Class::Name(name) => names.add_name(name.spot, &name.text),
        Class::Static(_) => Ok(()),
        Class::Variable(name, steps) => meet_steps(names, name, steps.as_slice()),
    }
}

#[cycle(expressions)]
fn meet_new_with(
    names: &mut Names,
    class: &Class<Expr>,
    arguments: &[Argument<Expr>],
) -> Result<(), NoMemory>
    ensures { OnOk result (names.new ≡ met.met_items
        (met.met_class names.old (class_view (class_with view class.now)))
        (arguments_from none (map (argument_with view) arguments.now))) }
{
    meet_class(names, class)?;
    meet_arguments(names, arguments)
}

#[cycle(expressions)]
fn meet_steps(names: &mut Names, name: &Name, steps: &[ClassStep<Expr>]) -> Result<(), NoMemory>
    ensures { OnOk result (names.new ≡ met.met_steps names.old (steps_from (from
        (spot_view name.now.spot) name.now.text) (map (step_with view) steps.now))) }
{
    names.add_variable(name.spot, &name.text)?;
    for step in steps {
        meet_step(names, step)?;
    }
    Ok(())
}

#[cycle(expressions)]
fn meet_step(names: &mut Names, step: &ClassStep<Expr>) -> Result<(), NoMemory>
    ensures { OnOk result (names.new ≡ met.met_step names.old (step_with view step.now)) }
{
    match step {
        ClassStep::Property(word) => meet_word(names, word),
        ClassStep::Index(key) => meet_expr(names, key),
    }
}

/// The names of an expression that may be absent.
pub(crate) fn meet_optional(names: &mut Names, e: &Option<Expr>) -> Result<(), NoMemory>
    ensures { OnOk result (names.new ≡ met.if_some met.met_tree names.old (optional view e.now)) }
{
    match e {
        None => Ok(()),
        Some(e) => meet_expr(names, e),
    }
}
