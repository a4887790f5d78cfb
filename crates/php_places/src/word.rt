// Words that may not stand everywhere: `yield`, and `self`, `parent` and `static` as names of classes.

ghost use Rattle.std.specs.Prelude.{◌≡◌};
ghost use Rattle.php_ast.specs.expression.View.{view, spot_view, class_view};
ghost use Rattle.php_ast.specs.expression.Parts.{class_with};
ghost use Rattle.php_legality.specs.Rows as spec;
ghost use Rattle.php_places.specs.Spots.{spots};
ghost use Rattle.php_places.specs.Met.{prefix_words, access_words};

use php_ast::{Class, Expr, Name, Prefix, Spot, Suffix};
use php_value::Text;

/// Whether a name is `self` or `parent`, in any letter case.
#[tactic(auto, unfolding(php_legality::specs::Taken::inner_class_names))]
pub fn is_inner_name(text: &Text) -> bool
    ensures { result ≡ spec.is_inner_name text.now }
{
    if b"self".eq_ignore_ascii_case(text.bytes()) {
        true
    } else {
        b"parent".eq_ignore_ascii_case(text.bytes())
    }
}

fn inner_name(name: &Name) -> Option<Spot>
    ensures { spots result ≡ spec.inner_name (record { note = spot_view name.now.spot; text = name.now.text }) }
{
    if is_inner_name(&name.text) {
        Some(name.spot)
    } else {
        None
    }
}

/// An expression that is `self` or `parent` alone.
pub(crate) fn inner_leaf(e: &Expr) -> Option<Spot>
    ensures { spots result ≡ spec.inner_leaf (view e.now) }
{
    match e {
        Expr::Name(name) => inner_name(name),
        Expr::Chain(inner, suffixes) => {
            if suffixes.as_slice().is_empty() {
                inner_leaf(inner.get())
            } else {
                None
            }
        }
        Expr::Run(inner, links) => {
            if links.as_slice().is_empty() {
                inner_leaf(inner.get())
            } else {
                None
            }
        }
        _ => None,
    }
}

/// Such a word behind `new`.
pub(crate) fn inner_class(class: &Class<Expr>) -> Option<Spot>
    ensures { spots result ≡ spec.inner_class (class_view (class_with view class.now)) }
{
    match class {
        Class::Name(name) => inner_name(name),
        Class::Static(spot) => Some(*spot),
        Class::Variable(_, _) => None,
    }
}

/// Such a word before `::`.
pub(crate) fn inner_access(e: &Expr, suffix: &Suffix<Expr>) -> Option<Spot>
    ensures { spots result ≡ access_words (view e.now) suffix.now }
{
    match suffix {
        Suffix::Append => None,
        Suffix::Index(_) => None,
        Suffix::Property(_) => None,
        Suffix::Member(_) => inner_leaf(e),
        Suffix::Call(_) => None,
    }
}

/// The `yield` of a prefix operator.
pub(crate) fn prefix_yield(spot: Spot, op: Prefix) -> Option<Spot>
    ensures { spots result ≡ prefix_words (spot_view spot) op }
{
    match op {
        Prefix::YieldFrom => Some(spot),
        Prefix::Clone => None,
        Prefix::Increment => None,
        Prefix::Decrement => None,
        Prefix::BitNot => None,
        Prefix::Silence => None,
        Prefix::ToInt => None,
        Prefix::ToBool => None,
        Prefix::ToText => None,
        Prefix::ToArray => None,
        Prefix::Plus => None,
        Prefix::Minus => None,
        Prefix::Not => None,
        Prefix::Print => None,
    }
}
