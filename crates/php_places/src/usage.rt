// What is done with an expression.

ghost use Rattle.std.specs.Prelude.{◌≡◌};
ghost use Rattle.php_ast.specs.expression.Tree.{array, by_value};
ghost use Rattle.php_legality.specs.Expressions as spec;
ghost use Rattle.php_places.specs.Uses.{use_view};

use php_ast::{ArrayForm, Assign, Prefix};

/// What is done with an expression.
#[derive(Clone, Copy)]
pub enum Use {
    /// Its value is taken, or the way to what stands behind it.
    Valued,
    /// It is the target of `=` or of `foreach`, or part of a list that is one.
    Assigned,
    /// It is the target of `= &`, `&`, `++`, `--` or an operator with `=`.
    Changed,
    /// It is the source of `= &`.
    Linked,
    /// It is an argument of `unset`.
    Removed,
    /// It is an argument of `isset`.
    Asked,
}

/// What an assignment does with its target.
pub(crate) fn target_use(op: Assign) -> Use
    ensures { use_view result ≡ spec.target_use (by_value op) }
{
    match op {
        Assign::Plain => Use::Assigned,
        Assign::Power => Use::Changed,
        Assign::Times => Use::Changed,
        Assign::Divided => Use::Changed,
        Assign::Remainder => Use::Changed,
        Assign::Plus => Use::Changed,
        Assign::Minus => Use::Changed,
        Assign::Concatenated => Use::Changed,
        Assign::ShiftedLeft => Use::Changed,
        Assign::ShiftedRight => Use::Changed,
        Assign::BitAnd => Use::Changed,
        Assign::BitXor => Use::Changed,
        Assign::BitOr => Use::Changed,
    }
}

/// What a prefix operator does with its operand.
pub(crate) fn operand_use(op: Prefix) -> Use
    ensures { use_view result ≡ spec.operand_use op }
{
    match op {
        Prefix::Increment => Use::Changed,
        Prefix::Decrement => Use::Changed,
        Prefix::Clone => Use::Valued,
        Prefix::BitNot => Use::Valued,
        Prefix::Silence => Use::Valued,
        Prefix::ToInt => Use::Valued,
        Prefix::ToBool => Use::Valued,
        Prefix::ToText => Use::Valued,
        Prefix::ToArray => Use::Valued,
        Prefix::Plus => Use::Valued,
        Prefix::Minus => Use::Valued,
        Prefix::Not => Use::Valued,
        Prefix::Print => Use::Valued,
        Prefix::YieldFrom => Use::Valued,
    }
}

// Of the items of an array or a list that takes values.
fn assigned_items(form: ArrayForm) -> Use
    ensures { use_view result ≡ spec.item_use spec.assigned (array form) }
{
    match form {
        ArrayForm::Brackets => Use::Assigned,
        ArrayForm::List => Use::Assigned,
        ArrayForm::Array => Use::Valued,
    }
}

/// What is done with the items of an array or a list.
pub(crate) fn item_use(usage: Use, form: ArrayForm) -> Use
    ensures { use_view result ≡ spec.item_use (use_view usage) (array form) }
{
    match usage {
        Use::Assigned => assigned_items(form),
        Use::Valued => Use::Valued,
        Use::Changed => Use::Valued,
        Use::Linked => Use::Valued,
        Use::Removed => Use::Valued,
        Use::Asked => Use::Valued,
    }
}
