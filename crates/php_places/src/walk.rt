// The walk over expressions. A call goes on with parts of its expression, so it takes no more stack than the expression is nested.

ghost use Rattle.std.specs.Prelude.{◌≡◌, ◌≢◌, [], map};
ghost use Rattle.php_ast.specs.expression.View.{view, class_view};
ghost use Rattle.php_ast.specs.expression.Parts as part;
ghost use Rattle.php_places.specs.Met as spec;
ghost use Rattle.php_places.specs.Elements as element;
ghost use Rattle.php_places.specs.Over.{over};
ghost use Rattle.php_places.specs.Uses.{use_view};

use crate::fault::at_word;
use crate::node::at_use;
use crate::usage::{Use, item_use, operand_use, target_use};
use crate::word::{inner_access, inner_class, inner_leaf, prefix_yield};
use php_ast::{Argument, Class, ClassStep, Expr, Item, Link, Named, Piece, Suffix};
use php_legality::{Fault, Scope};

/// The first fault, behind those met, of an expression with which this is done, and of those inside it.
#[cycle(expressions)]
pub fn walk_used(met: Option<Fault>, scope: Scope, usage: Use, e: &Expr) -> Option<Fault>
    ensures { result ≡ spec.met_used scope (use_view usage) (view e.now) met }
{
    let met = at_use(met, usage, e);
    walk_inside(met, scope, usage, e)
}

#[cycle(expressions)]
fn walk_inside(met: Option<Fault>, scope: Scope, usage: Use, e: &Expr) -> Option<Fault>
    ensures { result ≡ spec.met_inside scope (use_view usage) (view e.now) met }
{
    match e {
        Expr::StaticMember(spot, _) => at_word(met, scope.in_class, Some(*spot)),
        Expr::Template(_, pieces) => walk_pieces(met, scope, pieces.as_slice()),
        Expr::Group(_, e) => walk_used(met, scope, Use::Valued, e.get()),
        Expr::Array(_, form, items) => {
            walk_items(met, scope, item_use(usage, *form), items.as_slice())
        }
        Expr::IsSet(_, es) => walk_values(met, scope, Use::Asked, es.as_slice()),
        Expr::Empty(_, e) => walk_used(met, scope, Use::Valued, e.get()),
        Expr::ExitWith(_, e) => walk_used(met, scope, Use::Valued, e.get()),
        Expr::Chain(e, suffixes) => {
            if suffixes.as_slice().is_empty() {
                walk_inside(met, scope, usage, e.get())
            } else {
                walk_chain(met, scope, e.get(), suffixes.as_slice())
            }
        }
        Expr::New(_, class) => walk_class(met, scope, class.get()),
        Expr::NewWith(_, class, arguments) => {
            let met = walk_class(met, scope, class.get());
            walk_arguments(met, scope, arguments.as_slice())
        }
        Expr::Prefix(spot, op, e) => {
            let met = at_word(met, scope.in_function, prefix_yield(*spot, *op));
            walk_used(met, scope, operand_use(*op), e.get())
        }
        Expr::Count(e, _) => walk_used(met, scope, Use::Changed, e.get()),
        Expr::Run(e, links) => {
            if links.as_slice().is_empty() {
                walk_inside(met, scope, usage, e.get())
            } else {
                let met = walk_used(met, scope, Use::Valued, e.get());
                walk_links(met, scope, links.as_slice())
            }
        }
        Expr::Binary(_, l, r) => {
            let met = walk_used(met, scope, Use::Valued, l.get());
            walk_used(met, scope, Use::Valued, r.get())
        }
        Expr::InstanceOf(l, r) => {
            let met = at_word(met, scope.in_class, inner_leaf(r.get()));
            let met = walk_used(met, scope, Use::Valued, l.get());
            walk_used(met, scope, Use::Valued, r.get())
        }
        Expr::InstanceOfStatic(l, spot) => {
            let met = at_word(met, scope.in_class, Some(*spot));
            walk_used(met, scope, Use::Valued, l.get())
        }
        Expr::Assign(op, l, r) => {
            let met = walk_used(met, scope, target_use(*op), l.get());
            walk_used(met, scope, Use::Valued, r.get())
        }
        Expr::AssignReference(l, r) => {
            let met = walk_used(met, scope, Use::Changed, l.get());
            walk_used(met, scope, Use::Linked, r.get())
        }
        Expr::YieldNothing(spot) => at_word(met, scope.in_function, Some(*spot)),
        Expr::Yield(spot, v) => {
            let met = at_word(met, scope.in_function, Some(*spot));
            walk_used(met, scope, Use::Valued, v.get())
        }
        Expr::YieldPair(spot, k, v) => {
            let met = at_word(met, scope.in_function, Some(*spot));
            let met = walk_used(met, scope, Use::Valued, k.get());
            walk_used(met, scope, Use::Valued, v.get())
        }
        Expr::Variable(_)
        | Expr::Int(_, _)
        | Expr::Str(_, _)
        | Expr::Name(_)
        | Expr::Exit(_)
        | Expr::ExitEmpty(_)
        | Expr::Magic(_, _) => met,
    }
}

/// Likewise of expressions, one after the other, with each of which this is done.
#[cycle(expressions)]
pub fn walk_values(met: Option<Fault>, scope: Scope, usage: Use, es: &[Expr]) -> Option<Fault>
    ensures { result ≡ over (spec.met_used scope (use_view usage)) (map view es.now) met }
{
    let mut first = met;
    for e in es {
        first = walk_used(first, scope, usage, e);
    }
    first
}

// An operand and its suffixes, one or more.
#[cycle(expressions)]
fn walk_chain(
    met: Option<Fault>,
    scope: Scope,
    e: &Expr,
    suffixes: &[Suffix<Expr>],
) -> Option<Fault>
    requires { suffixes.now ≢ [] }
    ensures { result ≡ element.met_chain scope (view e.now) (map (part.suffix_with view) suffixes.now) met }
{
    let met = at_word(met, scope.in_class, inner_access(e, &suffixes[0]));
    let met = walk_used(met, scope, Use::Valued, e);
    walk_suffixes(met, scope, suffixes)
}

#[cycle(expressions)]
fn walk_pieces(met: Option<Fault>, scope: Scope, pieces: &[Piece<Expr>]) -> Option<Fault>
    ensures { result ≡ over (element.met_piece scope) (map (part.piece_with view) pieces.now) met }
{
    let mut first = met;
    for piece in pieces {
        first = walk_piece(first, scope, piece);
    }
    first
}

#[cycle(expressions)]
fn walk_piece(met: Option<Fault>, scope: Scope, piece: &Piece<Expr>) -> Option<Fault>
    ensures { result ≡ element.met_piece scope (part.piece_with view piece.now) met }
{
    match piece {
        Piece::Bytes(_) => met,
        Piece::Part(e) => walk_used(met, scope, Use::Valued, e),
    }
}

#[cycle(expressions)]
fn walk_items(met: Option<Fault>, scope: Scope, usage: Use, items: &[Item<Expr>]) -> Option<Fault>
    ensures { result ≡ over (element.met_item scope (use_view usage)) (map (part.item_with view)
        items.now) met }
{
    let mut first = met;
    for item in items {
        first = walk_item(first, scope, usage, item);
    }
    first
}

#[cycle(expressions)]
fn walk_item(met: Option<Fault>, scope: Scope, usage: Use, item: &Item<Expr>) -> Option<Fault>
    ensures { result ≡ element.met_item scope (use_view usage) (part.item_with view item.now) met }
{
    match item {
        Item::Missing => met,
        Item::Value(e) => walk_used(met, scope, usage, e),
        Item::Reference(e) => walk_used(met, scope, Use::Changed, e),
        Item::Keyed(k, e) => {
            let met = walk_used(met, scope, Use::Valued, k);
            walk_used(met, scope, usage, e)
        }
        Item::KeyedReference(k, e) => {
            let met = walk_used(met, scope, Use::Valued, k);
            walk_used(met, scope, Use::Changed, e)
        }
    }
}

#[cycle(expressions)]
fn walk_arguments(met: Option<Fault>, scope: Scope, arguments: &[Argument<Expr>]) -> Option<Fault>
    ensures { result ≡ over (element.met_argument scope) (map (part.argument_with view) arguments.now)
        met }
{
    let mut first = met;
    for argument in arguments {
        first = walk_argument(first, scope, argument);
    }
    first
}

#[cycle(expressions)]
fn walk_argument(met: Option<Fault>, scope: Scope, argument: &Argument<Expr>) -> Option<Fault>
    ensures { result ≡ element.met_argument scope (part.argument_with view argument.now) met }
{
    match argument {
        Argument::Value(e) => walk_used(met, scope, Use::Valued, e),
        Argument::Spread(e) => walk_used(met, scope, Use::Valued, e),
    }
}

#[cycle(expressions)]
fn walk_suffixes(met: Option<Fault>, scope: Scope, suffixes: &[Suffix<Expr>]) -> Option<Fault>
    ensures { result ≡ over (element.met_suffix scope) (map (part.suffix_with view) suffixes.now) met }
{
    let mut first = met;
    for suffix in suffixes {
        first = walk_suffix(first, scope, suffix);
    }
    first
}

#[cycle(expressions)]
fn walk_suffix(met: Option<Fault>, scope: Scope, suffix: &Suffix<Expr>) -> Option<Fault>
    ensures { result ≡ element.met_suffix scope (part.suffix_with view suffix.now) met }
{
    match suffix {
        Suffix::Append => met,
        Suffix::Index(k) => walk_used(met, scope, Use::Valued, k),
        Suffix::Property(Named::Word(_)) => met,
        Suffix::Property(Named::Variable(_)) => met,
        Suffix::Property(Named::Computed(k)) => walk_used(met, scope, Use::Valued, k),
        Suffix::Member(_) => met,
        Suffix::Call(arguments) => walk_arguments(met, scope, arguments.as_slice()),
    }
}

// The class behind `new`.
#[cycle(expressions)]
fn walk_class(met: Option<Fault>, scope: Scope, class: &Class<Expr>) -> Option<Fault>
    ensures { result ≡ element.met_new scope (class_view (part.class_with view class.now)) met }
{
    let met = at_word(met, scope.in_class, inner_class(class));
    walk_class_steps(met, scope, class)
}

#[cycle(expressions)]
fn walk_class_steps(met: Option<Fault>, scope: Scope, class: &Class<Expr>) -> Option<Fault>
    ensures { result ≡ spec.met_class scope (class_view (part.class_with view class.now)) met }
{
    match class {
        Class::Name(_) => met,
        Class::Static(_) => met,
        Class::Variable(_, steps) => walk_steps(met, scope, steps.as_slice()),
    }
}

#[cycle(expressions)]
fn walk_steps(met: Option<Fault>, scope: Scope, steps: &[ClassStep<Expr>]) -> Option<Fault>
    ensures { result ≡ over (element.met_step scope) (map (part.step_with view) steps.now) met }
{
    let mut first = met;
    for step in steps {
        first = walk_step(first, scope, step);
    }
    first
}

#[cycle(expressions)]
fn walk_step(met: Option<Fault>, scope: Scope, step: &ClassStep<Expr>) -> Option<Fault>
    ensures { result ≡ element.met_step scope (part.step_with view step.now) met }
{
    match step {
        ClassStep::Property(_) => met,
        ClassStep::Index(k) => walk_used(met, scope, Use::Valued, k),
    }
}

#[cycle(expressions)]
fn walk_links(met: Option<Fault>, scope: Scope, links: &[Link<Expr>]) -> Option<Fault>
    ensures { result ≡ over (element.met_link scope) (map (part.link_with view) links.now) met }
{
    let mut first = met;
    for link in links {
        first = walk_link(first, scope, link);
    }
    first
}

#[cycle(expressions)]
fn walk_link(met: Option<Fault>, scope: Scope, link: &Link<Expr>) -> Option<Fault>
    ensures { result ≡ element.met_link scope (part.link_with view link.now) met }
{
    match link {
        Link::Operator(_, r) => walk_used(met, scope, Use::Valued, r),
        Link::Choice(a, b) => {
            let met = walk_used(met, scope, Use::Valued, a);
            walk_used(met, scope, Use::Valued, b)
        }
        Link::ShortChoice(b) => walk_used(met, scope, Use::Valued, b),
    }
}
