// Whether an expression is constant.

ghost use Rattle.std.specs.Prelude.{◌≡◌, map};
ghost use Rattle.php_ast.specs.expression.Parts.{item_with, link_with};
ghost use Rattle.php_ast.specs.expression.View.{view};
ghost use Rattle.php_legality.specs.Constants as spec;
ghost use Rattle.php_constants.specs.Elements as element;

use php_ast::{ArrayForm, Expr, Item, Link, Member, Prefix, Suffix};

fn is_constant_prefix(op: Prefix) -> bool
    ensures { result ≡ spec.is_constant_prefix op }
{
    match op {
        Prefix::Clone => false,
        Prefix::Increment => false,
        Prefix::Decrement => false,
        Prefix::BitNot => true,
        Prefix::Silence => true,
        Prefix::ToInt => true,
        Prefix::ToBool => true,
        Prefix::ToText => true,
        Prefix::ToArray => true,
        Prefix::Plus => true,
        Prefix::Minus => true,
        Prefix::Not => true,
        Prefix::Print => false,
        Prefix::YieldFrom => false,
    }
}

// Whether an expression is a name alone. A node with an empty list is the node inside it.
fn is_name(e: &Expr) -> bool
    ensures { result ≡ spec.is_name (view e.now) }
{
    match e {
        Expr::Name(_) => true,
        Expr::Chain(inner, suffixes) => {
            if suffixes.as_slice().is_empty() {
                is_name(inner.get())
            } else {
                false
            }
        }
        Expr::Run(inner, links) => {
            if links.as_slice().is_empty() {
                is_name(inner.get())
            } else {
                false
            }
        }
        _ => false,
    }
}

// Whether a suffix is `:: name` with a name that is no variable.
fn is_constant_suffix(suffix: &Suffix<Expr>) -> bool
    ensures { result ≡ element.is_constant_suffix suffix.now }
{
    match suffix {
        Suffix::Append | Suffix::Index(_) | Suffix::Property(_) | Suffix::Call(_) => false,
        Suffix::Member(Member::Word(_)) => true,
        Suffix::Member(Member::Variable(_)) => false,
    }
}

// Whether the suffixes are one `:: name` alone.
fn is_constant_access(suffixes: &[Suffix<Expr>]) -> bool
    ensures { result ≡ element.is_constant_access suffixes.now }
{
    let count = suffixes.len();
    if count == 1 {
        is_constant_suffix(&suffixes[0])
    } else {
        false
    }
}

/// Whether an expression is constant: made of literals, arrays, constants and constants of named classes by operators that have no effect.
#[cycle(constants)]
pub fn is_constant(e: &Expr) -> bool
    ensures { result ≡ spec.is_constant (view e.now) }
{
    match e {
        Expr::Int(_, _) | Expr::Str(_, _) | Expr::Name(_) | Expr::Magic(_, _) => true,
        Expr::Group(_, e) => is_constant(e.get()),
        Expr::Array(_, form, items) => is_constant_array(*form, items.as_slice()),
        Expr::Chain(e, suffixes) => {
            if suffixes.as_slice().is_empty() {
                is_constant(e.get())
            } else if is_name(e.get()) {
                is_constant_access(suffixes.as_slice())
            } else {
                false
            }
        }
        Expr::Prefix(_, op, e) => {
            if is_constant_prefix(*op) {
                is_constant(e.get())
            } else {
                false
            }
        }
        Expr::Run(e, links) => {
            if is_constant(e.get()) {
                are_constant_links(links.as_slice())
            } else {
                false
            }
        }
        Expr::Binary(_, l, r) => {
            if is_constant(l.get()) {
                is_constant(r.get())
            } else {
                false
            }
        }
        Expr::InstanceOf(l, r) => {
            if is_constant(l.get()) {
                is_name(r.get())
            } else {
                false
            }
        }
        Expr::Variable(_)
        | Expr::StaticMember(_, _)
        | Expr::Template(_, _)
        | Expr::IsSet(_, _)
        | Expr::Empty(_, _)
        | Expr::Exit(_)
        | Expr::ExitEmpty(_)
        | Expr::ExitWith(_, _)
        | Expr::New(_, _)
        | Expr::NewWith(_, _, _)
        | Expr::Count(_, _)
        | Expr::InstanceOfStatic(_, _)
        | Expr::Assign(_, _, _)
        | Expr::AssignReference(_, _)
        | Expr::YieldNothing(_)
        | Expr::Yield(_, _)
        | Expr::YieldPair(_, _, _) => false,
    }
}

#[cycle(constants)]
fn is_constant_array(form: ArrayForm, items: &[Item<Expr>]) -> bool
    ensures { result ≡ element.is_constant_array form (map (item_with view) items.now) }
{
    match form {
        ArrayForm::List => false,
        ArrayForm::Brackets => are_constant_items(items),
        ArrayForm::Array => are_constant_items(items),
    }
}

#[cycle(constants)]
fn are_constant_items(items: &[Item<Expr>]) -> bool
    ensures { result ≡ element.all_constant element.is_constant_item (map (item_with view) items.now) }
{
    for item in items {
        if !is_constant_item(item) {
            return false;
        }
    }
    true
}

#[cycle(constants)]
fn is_constant_item(item: &Item<Expr>) -> bool
    ensures { result ≡ element.is_constant_item (item_with view item.now) }
{
    match item {
        Item::Missing => true,
        Item::Value(e) => is_constant(e),
        Item::Keyed(k, e) => {
            if is_constant(k) {
                is_constant(e)
            } else {
                false
            }
        }
        Item::Reference(_) | Item::KeyedReference(_, _) => false,
    }
}

#[cycle(constants)]
fn are_constant_links(links: &[Link<Expr>]) -> bool
    ensures { result ≡ element.all_constant element.is_constant_link (map (link_with view) links.now) }
{
    for link in links {
        if !is_constant_link(link) {
            return false;
        }
    }
    true
}

#[cycle(constants)]
fn is_constant_link(link: &Link<Expr>) -> bool
    ensures { result ≡ element.is_constant_link (link_with view link.now) }
{
    match link {
        Link::Operator(_, e) => is_constant(e),
        Link::Choice(a, b) => {
            if is_constant(a) {
                is_constant(b)
            } else {
                false
            }
        }
        Link::ShortChoice(b) => is_constant(b),
    }
}
