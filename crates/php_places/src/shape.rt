// What an expression is, as far as it matters for what may be done with it.

ghost use Rattle.std.specs.Prelude.{◌≡◌};
ghost use Rattle.php_ast.specs.expression.View.{view};
ghost use Rattle.php_places.specs.Over.{over};
ghost use Rattle.php_places.specs.Shapes as spec;

use crate::list::{Found, find, is_bad_target};
use crate::usage::Use;
use php_ast::{ArrayForm, Expr, Item, Member, Name, Suffix};

/// What an expression is.
#[derive(Clone, Copy)]
pub(crate) struct Shape {
    pub(crate) is_place: bool,
    /// `$this` alone
    pub(crate) is_this: bool,
    /// A static member alone.
    pub(crate) is_static: bool,
    pub(crate) is_call: bool,
    /// What may take values and is no place.
    pub(crate) is_list: bool,
    /// An array or a list that is written wrongly where it takes values.
    pub(crate) is_bad_target: bool,
    /// Likewise elsewhere.
    pub(crate) is_bad_value: bool,
}

/// None of all that.
fn plain() -> Shape
    ensures { result ≡ spec.plain }
{
    Shape {
        is_place: false,
        is_this: false,
        is_static: false,
        is_call: false,
        is_list: false,
        is_bad_target: false,
        is_bad_value: false,
    }
}

fn place(is_this: bool, is_static: bool) -> Shape
    ensures { result ≡ spec.place is_this is_static }
{
    Shape {
        is_place: true,
        is_this,
        is_static,
        is_call: false,
        is_list: false,
        is_bad_target: false,
        is_bad_value: false,
    }
}

fn element(is_place: bool) -> Shape
    ensures { result ≡ spec.element is_place }
{
    Shape {
        is_place,
        is_this: false,
        is_static: false,
        is_call: false,
        is_list: false,
        is_bad_target: false,
        is_bad_value: false,
    }
}

fn called() -> Shape
    ensures { result ≡ spec.called }
{
    Shape {
        is_place: false,
        is_this: false,
        is_static: false,
        is_call: true,
        is_list: false,
        is_bad_target: false,
        is_bad_value: false,
    }
}

fn variable(name: &Name) -> Shape
    ensures { result ≡ spec.variable name.now.text }
{
    let is_this = name.text.bytes() == b"this".as_slice();
    place(is_this, false)
}

fn static_member(member: &Member) -> Shape
    ensures { result ≡ spec.static_member member.now }
{
    match member {
        Member::Word(_) => plain(),
        Member::Variable(_) => place(false, true),
    }
}

fn listed(is_list: bool, is_bad_target: bool, is_bad_value: bool) -> Shape
    ensures { result ≡ spec.listed is_list is_bad_target is_bad_value }
{
    Shape {
        is_place: false,
        is_this: false,
        is_static: false,
        is_call: false,
        is_list,
        is_bad_target,
        is_bad_value,
    }
}

fn array(form: ArrayForm, items: &[Item<Expr>]) -> Shape
    ensures { result ≡ spec.array form (over spec.look items.now spec.nothing) }
{
    let found = find(items);
    match form {
        ArrayForm::Brackets => listed(true, is_bad_target(found), found.trimmed.has_missing),
        ArrayForm::Array => listed(false, found.trimmed.has_missing, found.trimmed.has_missing),
        ArrayForm::List => listed(true, is_bad_target(found), true),
    }
}

fn after(suffix: &Suffix<Expr>, before: Shape) -> Shape
    ensures { result ≡ spec.after suffix.now before }
{
    match suffix {
        Suffix::Append => element(before.is_place),
        Suffix::Index(_) => element(before.is_place),
        Suffix::Property(_) => place(false, false),
        Suffix::Member(member) => static_member(member),
        Suffix::Call(_) => called(),
    }
}

fn after_all(before: Shape, suffixes: &[Suffix<Expr>]) -> Shape
    ensures { result ≡ over spec.after suffixes.now before }
{
    let mut shape = before;
    for suffix in suffixes {
        shape = after(suffix, shape);
    }
    shape
}

/// What an expression is.
pub(crate) fn shape_of(e: &Expr) -> Shape
    ensures { result ≡ spec.shape_of (view e.now) }
{
    match e {
        Expr::Variable(name) => variable(name),
        Expr::StaticMember(_, member) => static_member(member.get()),
        Expr::Array(_, form, items) => array(*form, items.as_slice()),
        Expr::Chain(e, suffixes) => after_all(shape_of(e.get()), suffixes.as_slice()),
        Expr::Run(e, links) => {
            if links.as_slice().is_empty() {
                shape_of(e.get())
            } else {
                plain()
            }
        }
        _ => plain(),
    }
}

fn is_written(shape: Shape) -> bool
    ensures { result ≡ spec.is_written shape }
{
    if shape.is_place {
        !shape.is_this
    } else {
        false
    }
}

/// Whether this may be done with such an expression.
pub(crate) fn fits(usage: Use, shape: Shape) -> bool
    ensures { result ≡ spec.fits usage shape }
{
    match usage {
        Use::Valued => true,
        Use::Assigned => {
            if is_written(shape) {
                true
            } else {
                shape.is_list
            }
        }
        Use::Changed => is_written(shape),
        Use::Linked => {
            if is_written(shape) {
                true
            } else {
                shape.is_call
            }
        }
        Use::Removed => {
            if is_written(shape) {
                !shape.is_static
            } else {
                false
            }
        }
        Use::Asked => shape.is_place,
    }
}

/// Whether it is an array or a list that is written wrongly for this.
pub(crate) fn is_bad_list(usage: Use, shape: Shape) -> bool
    ensures { result ≡ spec.is_bad_list usage shape }
{
    match usage {
        Use::Assigned => shape.is_bad_target,
        Use::Valued => shape.is_bad_value,
        Use::Changed => shape.is_bad_value,
        Use::Linked => shape.is_bad_value,
        Use::Removed => shape.is_bad_value,
        Use::Asked => shape.is_bad_value,
    }
}
