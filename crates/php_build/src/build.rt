// Trees of expressions from their parts. Each function that answers an error does so for want of memory.

ghost use Rattle.std.specs.Prelude.{◌≡◌, true, false, map, IfOk};
ghost use Rattle.php_ast.specs.Power.{is_left, binary_row};
ghost use Rattle.php_ast.specs.expression.Tree as tree;
ghost use Rattle.php_ast.specs.expression.View as shown;
ghost use Rattle.php_ast.specs.expression.View.{view, spot_view};
ghost use Rattle.php_ast.specs.expression.Parts.{argument_with, class_with, item_with, link_with, piece_with, suffix_with};
ghost use Rattle.php_build.specs.Flat.{are_flat, are_flat_arguments, are_flat_items, are_flat_pieces, are_flat_suffixes, is_flat, is_flat_class, is_flat_leaf, is_flat_link, is_flat_run, is_flat_suffix, is_run, link_row, starts_run};

use php_ast::{
    Argument, ArrayForm, Assign, Binary, Class, Count, Expr, Grouping, Item, Link, Member, Named,
    Piece, Prefix, Spot, Suffix, row_of, row_of_choice,
};
use sqlite_items::{Boxed, Items};
use std::alloc::{AllocError, Global};

/// `( .. )`.
pub fn group_expr(alloc: Global, spot: Spot, inside: Expr) -> Result<Expr, AllocError>
    requires { is_flat inside ≡ true }
    ensures shown { IfOk result (λ e. view e ≡ tree.enclosed (spot_view spot) tree.parentheses (view inside)) }
    ensures flat { IfOk result (λ e. is_flat_leaf e ≡ true) }
{
    Ok(Expr::Group(spot, Boxed::new(alloc, inside)?))
}

/// `empty( .. )`.
pub fn empty_expr(alloc: Global, spot: Spot, inside: Expr) -> Result<Expr, AllocError>
    requires { is_flat inside ≡ true }
    ensures shown { IfOk result (λ e. view e ≡ tree.enclosed (spot_view spot) tree.emptiness (view inside)) }
    ensures flat { IfOk result (λ e. is_flat_leaf e ≡ true) }
{
    Ok(Expr::Empty(spot, Boxed::new(alloc, inside)?))
}

/// `exit( .. )`.
pub fn exit_with_expr(alloc: Global, spot: Spot, inside: Expr) -> Result<Expr, AllocError>
    requires { is_flat inside ≡ true }
    ensures shown { IfOk result (λ e. view e ≡ tree.enclosed (spot_view spot) tree.exiting (view inside)) }
    ensures flat { IfOk result (λ e. is_flat_leaf e ≡ true) }
{
    Ok(Expr::ExitWith(spot, Boxed::new(alloc, inside)?))
}

/// `exit`.
pub fn exit_expr(spot: Spot) -> Expr
    ensures shown { view result ≡ tree.exit (spot_view spot) }
    ensures flat { is_flat_leaf result ≡ true }
{
    Expr::Exit(spot)
}

/// `exit()`.
pub fn exit_empty_expr(spot: Spot) -> Expr
    ensures shown { view result ≡ tree.exit_empty (spot_view spot) }
    ensures flat { is_flat_leaf result ≡ true }
{
    Expr::ExitEmpty(spot)
}

/// `static :: name`.
pub fn static_member_expr(alloc: Global, spot: Spot, member: Member) -> Result<Expr, AllocError>
    ensures shown { IfOk result (λ e. view e ≡ tree.static_member (spot_view spot) (shown.member_view member)) }
    ensures flat { IfOk result (λ e. is_flat_leaf e ≡ true) }
{
    Ok(Expr::StaticMember(spot, Boxed::new(alloc, member)?))
}

/// `yield` alone.
pub fn yield_nothing_expr(spot: Spot) -> Expr
    ensures shown { view result ≡ tree.yield_nothing (spot_view spot) }
    ensures flat { is_flat result ≡ true }
{
    Expr::YieldNothing(spot)
}

/// An array or a list.
pub fn array_expr(spot: Spot, form: ArrayForm, items: Items<Item<Expr>>) -> Expr
    requires { are_flat_items items ≡ true }
    ensures shown { view result ≡ tree.listed (spot_view spot) (tree.array form) (shown.items_from tree.none (map (item_with view) items)) }
    ensures flat { is_flat_leaf result ≡ true }
{
    Expr::Array(spot, form, items)
}

/// `isset( .. )`.
pub fn is_set_expr(spot: Spot, values: Items<Expr>) -> Expr
    requires { are_flat values ≡ true }
    ensures shown { view result ≡ tree.listed (spot_view spot) tree.is_set (shown.values_from tree.none (map view values)) }
    ensures flat { is_flat_leaf result ≡ true }
{
    Expr::IsSet(spot, values)
}

/// A text with parts.
pub fn template_expr(spot: Spot, pieces: Items<Piece<Expr>>) -> Expr
    requires { are_flat_pieces pieces ≡ true }
    ensures shown { view result ≡ tree.template (spot_view spot) (shown.pieces_from tree.no_piece (map (piece_with view) pieces)) }
    ensures flat { is_flat_leaf result ≡ true }
{
    Expr::Template(spot, pieces)
}

/// The suffix `-> name`.
pub fn property_suffix(member: Member) -> Suffix<Expr>
    ensures shown { (e : tree.Tree shown.Note) → shown.with_suffix e (suffix_with view result) ≡ tree.selected e tree.thin (shown.member_view member) }
    ensures flat { is_flat_suffix result ≡ true }
{
    match member {
        Member::Word(word) => Suffix::Property(Named::Word(word)),
        Member::Variable(name) => Suffix::Property(Named::Variable(name)),
    }
}

/// An operand with its suffixes.
pub fn chain_expr(
    alloc: Global,
    first: Expr,
    suffixes: Items<Suffix<Expr>>,
) -> Result<Expr, AllocError>
    requires first { is_flat_leaf first ≡ true }
    requires suffixes { are_flat_suffixes suffixes ≡ true }
    ensures shown { IfOk result (λ e. view e ≡ shown.with_suffixes (view first) (map (suffix_with view) suffixes)) }
    ensures flat { IfOk result (λ e. is_flat e ≡ true) }
{
    if suffixes.is_empty() {
        return Ok(first);
    }
    Ok(Expr::Chain(Boxed::new(alloc, first)?, suffixes))
}

/// `new` and its class.
pub fn new_expr(alloc: Global, spot: Spot, class: Class<Expr>) -> Result<Expr, AllocError>
    requires { is_flat_class class ≡ true }
    ensures shown { IfOk result (λ e. view e ≡ tree.new (spot_view spot) (shown.class_view (class_with view class))) }
    ensures flat { IfOk result (λ e. is_flat_leaf e ≡ true) }
{
    Ok(Expr::New(spot, Boxed::new(alloc, class)?))
}

/// `new`, its class and its arguments.
pub fn new_with_expr(
    alloc: Global,
    spot: Spot,
    class: Class<Expr>,
    arguments: Items<Argument<Expr>>,
) -> Result<Expr, AllocError>
    requires class { is_flat_class class ≡ true }
    requires arguments { are_flat_arguments arguments ≡ true }
    ensures shown { IfOk result (λ e. view e ≡ tree.new_with (spot_view spot) (shown.class_view (class_with view class)) (shown.arguments_from tree.none (map (argument_with view) arguments))) }
    ensures flat { IfOk result (λ e. is_flat_leaf e ≡ true) }
{
    Ok(Expr::NewWith(spot, Boxed::new(alloc, class)?, arguments))
}

/// A prefix operator and its operand.
pub fn prefix_expr(alloc: Global, spot: Spot, op: Prefix, operand: Expr) -> Result<Expr, AllocError>
    requires { is_flat operand ≡ true }
    ensures shown { IfOk result (λ e. view e ≡ tree.prefix (spot_view spot) op (view operand)) }
    ensures flat { IfOk result (λ e. is_flat e ≡ true) }
{
    Ok(Expr::Prefix(spot, op, Boxed::new(alloc, operand)?))
}

/// `++` or `--` behind an operand.
pub fn count_expr(alloc: Global, operand: Expr, count: Count) -> Result<Expr, AllocError>
    requires { is_flat operand ≡ true }
    ensures shown { IfOk result (λ e. view e ≡ tree.count (view operand) count) }
    ensures flat { IfOk result (λ e. is_flat e ≡ true) }
{
    Ok(Expr::Count(Boxed::new(alloc, operand)?, count))
}

/// An assignment of a value.
pub fn assign_expr(alloc: Global, op: Assign, target: Expr, value: Expr) -> Result<Expr, AllocError>
    requires target { is_flat target ≡ true }
    requires value { is_flat value ≡ true }
    ensures shown { IfOk result (λ e. view e ≡ tree.assign (tree.by_value op) (view target) (view value)) }
    ensures flat { IfOk result (λ e. is_flat e ≡ true) }
{
    Ok(Expr::Assign(op, Boxed::new(alloc, target)?, Boxed::new(alloc, value)?))
}

/// An assignment of a reference.
pub fn assign_reference_expr(alloc: Global, target: Expr, source: Expr) -> Result<Expr, AllocError>
    requires target { is_flat target ≡ true }
    requires source { is_flat source ≡ true }
    ensures shown { IfOk result (λ e. view e ≡ tree.assign tree.by_reference (view target) (view source)) }
    ensures flat { IfOk result (λ e. is_flat e ≡ true) }
{
    Ok(Expr::AssignReference(Boxed::new(alloc, target)?, Boxed::new(alloc, source)?))
}

/// `yield` and a value.
pub fn yield_value_expr(alloc: Global, spot: Spot, value: Expr) -> Result<Expr, AllocError>
    requires { is_flat value ≡ true }
    ensures shown { IfOk result (λ e. view e ≡ tree.yield_value (spot_view spot) (view value)) }
    ensures flat { IfOk result (λ e. is_flat e ≡ true) }
{
    Ok(Expr::Yield(spot, Boxed::new(alloc, value)?))
}

/// `yield`, a key and a value.
pub fn yield_pair_expr(
    alloc: Global,
    spot: Spot,
    key: Expr,
    value: Expr,
) -> Result<Expr, AllocError>
    requires key { is_flat key ≡ true }
    requires value { is_flat value ≡ true }
    ensures shown { IfOk result (λ e. view e ≡ tree.yield_pair (spot_view spot) (view key) (view value)) }
    ensures flat { IfOk result (λ e. is_flat e ≡ true) }
{
    Ok(Expr::YieldPair(spot, Boxed::new(alloc, key)?, Boxed::new(alloc, value)?))
}

/// `instanceof` and a class.
pub fn instance_of_expr(alloc: Global, left: Expr, class: Expr) -> Result<Expr, AllocError>
    requires left { is_flat left ≡ true }
    requires class { is_flat class ≡ true }
    ensures shown { IfOk result (λ e. view e ≡ tree.instance_of (view left) (view class)) }
    ensures flat { IfOk result (λ e. is_flat e ≡ true) }
{
    Ok(Expr::InstanceOf(Boxed::new(alloc, left)?, Boxed::new(alloc, class)?))
}

/// `instanceof static`.
pub fn instance_of_static_expr(alloc: Global, left: Expr, spot: Spot) -> Result<Expr, AllocError>
    requires { is_flat left ≡ true }
    ensures shown { IfOk result (λ e. view e ≡ tree.instance_of_static (view left) (spot_view spot)) }
    ensures flat { IfOk result (λ e. is_flat e ≡ true) }
{
    Ok(Expr::InstanceOfStatic(Boxed::new(alloc, left)?, spot))
}

fn two_sided_expr(alloc: Global, op: Binary, left: Expr, right: Expr) -> Result<Expr, AllocError>
    requires left { is_flat left ≡ true }
    requires right { is_flat right ≡ true }
    requires no_run { is_left (binary_row op).grouping ≡ false }
    ensures shown { IfOk result (λ e. view e ≡ tree.binary op (view left) (view right)) }
    ensures flat { IfOk result (λ e. is_flat e ≡ true) }
{
    Ok(Expr::Binary(op, Boxed::new(alloc, left)?, Boxed::new(alloc, right)?))
}

/// The power of the operator of a link.
fn power_of(link: &Link<Expr>) -> u8
    ensures { result ≡ (link_row link.now).power }
{
    match link {
        Link::Operator(op, _) => row_of(*op).power,
        Link::Choice(..) | Link::ShortChoice(_) => row_of_choice().power,
    }
}

/// Whether a run goes on with a link of this power.
fn continues(links: &Items<Link<Expr>>, power: u8) -> bool
    ensures { result ≡ starts_run power links.now }
{
    match links.get(0) {
        Some(link) => power_of(link) == power,
        None => false,
    }
}

/// The first link of a run behind its first operand.
fn begun_run_expr(alloc: Global, first: Expr, link: Link<Expr>) -> Result<Expr, AllocError>
    requires first { is_flat first ≡ true }
    requires other { is_run (link_row link).power first ≡ false }
    requires link { is_flat_link link ≡ true }
    ensures shown { IfOk result (λ e. view e ≡ shown.with_link (view first) (link_with view link)) }
    ensures flat { IfOk result (λ e. is_flat e ≡ true) }
{
    let mut links = Items::new(alloc);
    links.push(link)?;
    Ok(Expr::Run(Boxed::new(alloc, first)?, links))
}

fn run_expr(first: Boxed<Expr>, links: Items<Link<Expr>>) -> Expr
    requires { is_flat_run first links ≡ true }
    ensures shown { view result ≡ shown.with_links (view first) (map (link_with view) links) }
    ensures flat { is_flat result ≡ true }
{
    Expr::Run(first, links)
}

/// One more link behind a run: in its list where the power is the same, else of a run around it.
fn continued_run_expr(
    alloc: Global,
    first: Boxed<Expr>,
    links: Items<Link<Expr>>,
    link: Link<Expr>,
) -> Result<Expr, AllocError>
    requires run { is_flat_run first links ≡ true }
    requires link { is_flat_link link ≡ true }
    ensures shown { IfOk result (λ e. view e ≡ shown.with_link (shown.with_links (view first) (map (link_with view) links)) (link_with view link)) }
    ensures flat { IfOk result (λ e. is_flat e ≡ true) }
{
    if !continues(&links, power_of(&link)) {
        return begun_run_expr(alloc, Expr::Run(first, links), link);
    }
    let mut longer = links;
    longer.push(link)?;
    Ok(run_expr(first, longer))
}

/// An expression that goes on with a link; operators of one power are one run.
pub fn link_expr(alloc: Global, left: Expr, link: Link<Expr>) -> Result<Expr, AllocError>
    requires left { is_flat left ≡ true }
    requires link { is_flat_link link ≡ true }
    ensures shown { IfOk result (λ e. view e ≡ shown.with_link (view left) (link_with view link)) }
    ensures flat { IfOk result (λ e. is_flat e ≡ true) }
{
    match left {
        Expr::Run(first, links) => continued_run_expr(alloc, first, links, link),
        other => begun_run_expr(alloc, other, link),
    }
}

/// An operator between two operands: a link of a run where it groups to the left.
pub fn binary_expr(alloc: Global, op: Binary, left: Expr, right: Expr) -> Result<Expr, AllocError>
    requires left { is_flat left ≡ true }
    requires right { is_flat right ≡ true }
    ensures shown { IfOk result (λ e. view e ≡ tree.binary op (view left) (view right)) }
    ensures flat { IfOk result (λ e. is_flat e ≡ true) }
{
    match row_of(op).grouping {
        Grouping::ToLeft => link_expr(alloc, left, Link::Operator(op, right)),
        Grouping::ToRight | Grouping::Ungrouped => two_sided_expr(alloc, op, left, right),
    }
}
