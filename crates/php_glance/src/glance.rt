// What a look at two values tells, before any of their parts is looked at.
ghost use Rattle.std.specs.Prelude.{◌≡◌, true, false, Option, Some, None};
ghost use Rattle.php_memdef.specs.Contents.{Content, Mem};
ghost use Rattle.php_memdef.specs.Views.{Shows};
ghost use Rattle.php_compare.specs.Outcomes.{Compared, Identified};
ghost use Rattle.php_compare.specs.Places.{or_null};
ghost use Rattle.php_glance.specs.Glances.{truth_shown, glance_by, counted, at_a_glance, with_null, with_bool, with_int, with_text, with_array, with_object, like_null, like_bool, like_int, like_text, like_array, like_object, identity_at_a_glance, is_missing, order_of_int_and_text, order_of_text_and_int, Tells, TellsLikeness};

use crate::scalars::number_of;
use php_memdef::{Obj, Peek};
use php_value::{
    ErrorKind, Fault, Order, Stopped, Text, has_truth, order_by, order_of_bools, order_of_ints,
    order_of_texts,
};

/// What a look at two values tells of their order.
#[derive(Clone, Copy)]
pub enum Glance {
    /// How they compare.
    Known(Order),
    /// What comes in the place of an order.
    Refused(Stopped),
    /// Two arrays of as many entries, which decide.
    Arrays,
    /// Two objects, whose classes and properties decide.
    Objects(Obj, Obj),
}

/// What a look at two values tells of whether they are identical.
#[derive(Clone, Copy)]
pub enum Likeness {
    Known(bool),
    /// Two arrays of as many entries, which decide.
    Arrays,
}

fn truth(value: &Peek<'_>) -> bool
    ensures { result ≡ truth_shown value.now }
{
    match value {
        Peek::Absent | Peek::Null => false,
        Peek::Bool(b) => *b,
        Peek::Int(i) => *i != 0,
        Peek::Str(text) => has_truth(text.bytes()),
        Peek::Arr(entries) => *entries > 0,
        Peek::Obj(_) => true,
    }
}

fn glance_by(order: Result<Order, Fault>) -> Glance
    ensures { result ≡ glance_by order }
{
    match order {
        Ok(order) => Glance::Known(order),
        Err(fault) => Glance::Refused(Stopped::Fault(fault)),
    }
}

// Of as many entries each, the entries decide.
fn counted(order: Order) -> Glance
    ensures { result ≡ counted order }
{
    match order {
        Order::Same => Glance::Arrays,
        Order::Less => Glance::Known(Order::Less),
        Order::More => Glance::Known(Order::More),
        Order::Apart => Glance::Known(Order::Apart),
    }
}

fn with_bool(left: bool, right: &Peek<'_>) -> Glance
    ensures { result ≡ with_bool left right.now }
{
    Glance::Known(order_of_bools(left, truth(right)))
}

fn with_null(right: &Peek<'_>) -> Glance
    ensures { result ≡ with_null right.now }
{
    match right {
        Peek::Str(text) => glance_by(order_of_texts(&[], text.bytes())),
        Peek::Absent | Peek::Null | Peek::Bool(_) | Peek::Int(_) | Peek::Arr(_) | Peek::Obj(_) =>
            with_bool(false, right),
    }
}

fn int_with_text(left: i64, right: &Text) -> Result<Order, Fault>
    ensures { result ≡ order_of_int_and_text left right.now }
{
    Ok(order_of_ints(left, number_of(right.bytes())?))
}

fn text_with_int(left: &Text, right: i64) -> Result<Order, Fault>
    ensures { result ≡ order_of_text_and_int left.now right }
{
    Ok(order_of_ints(number_of(left.bytes())?, right))
}

fn with_int(left: i64, right: &Peek<'_>) -> Glance
    ensures { result ≡ with_int left right.now }
{
    match right {
        Peek::Absent | Peek::Null | Peek::Bool(_) => {
            Glance::Known(order_of_bools(left != 0, truth(right)))
        }
        Peek::Int(right) => Glance::Known(order_of_ints(left, *right)),
        Peek::Str(text) => glance_by(int_with_text(left, text)),
        Peek::Arr(_) | Peek::Obj(_) => Glance::Known(Order::Less),
    }
}

fn with_text(left: &Text, right: &Peek<'_>) -> Glance
    ensures { result ≡ with_text left.now right.now }
{
    match right {
        Peek::Absent | Peek::Null => glance_by(order_of_texts(left.bytes(), &[])),
        Peek::Bool(b) => Glance::Known(order_of_bools(has_truth(left.bytes()), *b)),
        Peek::Int(right) => glance_by(text_with_int(left, *right)),
        Peek::Str(text) => glance_by(order_of_texts(left.bytes(), text.bytes())),
        Peek::Arr(_) => Glance::Known(Order::Less),
        Peek::Obj(_) => Glance::Refused(Stopped::Throws(ErrorKind::OBJECT_AGAINST_STRING)),
    }
}

fn with_array(left: usize, right: &Peek<'_>) -> Glance
    ensures { result ≡ with_array left right.now }
{
    match right {
        Peek::Absent | Peek::Null | Peek::Bool(_) => {
            Glance::Known(order_of_bools(left > 0, truth(right)))
        }
        Peek::Int(_) | Peek::Str(_) => Glance::Known(Order::More),
        Peek::Arr(right) => counted(order_by(left.cmp(right))),
        Peek::Obj(_) => Glance::Known(Order::Less),
    }
}

fn with_object(left: Obj, right: &Peek<'_>) -> Glance
    ensures { result ≡ with_object left right.now }
{
    match right {
        Peek::Absent | Peek::Null | Peek::Bool(_) => {
            Glance::Known(order_of_bools(true, truth(right)))
        }
        Peek::Int(_) | Peek::Arr(_) => Glance::Known(Order::More),
        Peek::Str(_) => Glance::Refused(Stopped::Throws(ErrorKind::OBJECT_AGAINST_STRING)),
        Peek::Obj(right) => {
            if left.0 == right.0 {
                Glance::Known(Order::Same)
            } else {
                Glance::Objects(left, *right)
            }
        }
    }
}

#[tactic(auto, unfolding(crate::specs::Glances::at_a_glance))]
fn look(left: &Peek<'_>, right: &Peek<'_>) -> Glance
    ensures { result ≡ at_a_glance left.now right.now }
{
    match left {
        Peek::Absent | Peek::Null => with_null(right),
        Peek::Bool(b) => with_bool(*b, right),
        Peek::Int(i) => with_int(*i, right),
        Peek::Str(text) => with_text(text, right),
        Peek::Arr(entries) => with_array(*entries, right),
        Peek::Obj(obj) => with_object(*obj, right),
    }
}

fn like_null(right: &Peek<'_>) -> Likeness
    ensures { result ≡ like_null right.now }
{
    match right {
        Peek::Absent | Peek::Null => Likeness::Known(true),
        Peek::Bool(_) | Peek::Int(_) | Peek::Str(_) | Peek::Arr(_) | Peek::Obj(_) => {
            Likeness::Known(false)
        }
    }
}

fn like_bool(left: bool, right: &Peek<'_>) -> Likeness
    ensures { result ≡ like_bool left right.now }
{
    match right {
        Peek::Bool(right) => Likeness::Known(if left { *right } else { !*right }),
        Peek::Absent | Peek::Null | Peek::Int(_) | Peek::Str(_) | Peek::Arr(_) | Peek::Obj(_) =>
            Likeness::Known(false),
    }
}

fn like_int(left: i64, right: &Peek<'_>) -> Likeness
    ensures { result ≡ like_int left right.now }
{
    match right {
        Peek::Int(right) => Likeness::Known(left == *right),
        Peek::Absent | Peek::Null | Peek::Bool(_) | Peek::Str(_) | Peek::Arr(_) | Peek::Obj(_) =>
            Likeness::Known(false),
    }
}

fn like_text(left: &Text, right: &Peek<'_>) -> Likeness
    ensures { result ≡ like_text left.now right.now }
{
    match right {
        Peek::Str(right) => Likeness::Known(left.bytes() == right.bytes()),
        Peek::Absent | Peek::Null | Peek::Bool(_) | Peek::Int(_) | Peek::Arr(_) | Peek::Obj(_) =>
            Likeness::Known(false),
    }
}

fn like_array(left: usize, right: &Peek<'_>) -> Likeness
    ensures { result ≡ like_array left right.now }
{
    match right {
        Peek::Arr(right) => {
            if left == *right {
                Likeness::Arrays
            } else {
                Likeness::Known(false)
            }
        }
        Peek::Absent | Peek::Null | Peek::Bool(_) | Peek::Int(_) | Peek::Str(_) | Peek::Obj(_) =>
            Likeness::Known(false),
    }
}

fn like_object(left: Obj, right: &Peek<'_>) -> Likeness
    ensures { result ≡ like_object left right.now }
{
    match right {
        Peek::Obj(right) => Likeness::Known(left.0 == right.0),
        Peek::Absent | Peek::Null | Peek::Bool(_) | Peek::Int(_) | Peek::Str(_) | Peek::Arr(_) =>
            Likeness::Known(false),
    }
}

#[tactic(auto, unfolding(crate::specs::Glances::identity_at_a_glance))]
fn look_for_identity(left: &Peek<'_>, right: &Peek<'_>) -> Likeness
    ensures { result ≡ identity_at_a_glance left.now right.now }
{
    match left {
        Peek::Absent | Peek::Null => like_null(right),
        Peek::Bool(b) => like_bool(*b, right),
        Peek::Int(i) => like_int(*i, right),
        Peek::Str(text) => like_text(text, right),
        Peek::Arr(entries) => like_array(*entries, right),
        Peek::Obj(obj) => like_object(*obj, right),
    }
}

/// What two values tell of their order. What is missing counts as null.
pub fn at_a_glance(left: &Peek<'_>, right: &Peek<'_>) -> Glance
    ensures { (inner : Content → Content → Compared) (m : Mem) (c d : Option Content)
        → Shows left.now c → Shows right.now d → Tells inner m (or_null c) (or_null d) result }
{
    look(left, right)
}

/// What two values tell of whether they are identical. What is missing counts as null.
pub fn identity_at_a_glance(left: &Peek<'_>, right: &Peek<'_>) -> Likeness
    ensures { (inner : Content → Content → Identified) (m : Mem) (c d : Option Content)
        → Shows left.now c → Shows right.now d → TellsLikeness inner m (or_null c) (or_null d) result }
{
    look_for_identity(left, right)
}

/// Whether nothing stands there.
pub fn is_missing(value: &Peek<'_>) -> bool
    ensures missing { result ≡ true → (c : Option Content) → Shows value.now c → c ≡ None }
    ensures there { result ≡ false → (c : Option Content) → Shows value.now c → c ≡ Some (or_null c) }
{
    is_nothing(value)
}

fn is_nothing(value: &Peek<'_>) -> bool
    ensures { result ≡ is_missing value.now }
{
    matches!(value, Peek::Absent)
}
