// `==`, `<` and the like, over any memory.
ghost use Rattle.std.specs.Prelude.{◌≡◌, ℕ, false, Some, length, IfOk};
ghost use Rattle.std.specs.Ordering.{nat_cmp};
ghost use Rattle.php_value.specs.Comparison.{order_by};
ghost use Rattle.php_entries.specs.Listing.{Listing};
ghost use Rattle.php_memdef.specs.Contents.{array, object_of};
ghost use Rattle.php_memdef.specs.Meanings.{SomeMeant, EachMeant};
ghost use Rattle.php_memdef.specs.Sound.{IsSound};
ghost use Rattle.php_memdef.specs.Views.{found};
ghost use Rattle.php_compare.specs.Ordering.{order_nested, order_by_rules, order_of_pairs, element_pairs, property_pairs, order_of_members};
ghost use Rattle.php_compare.specs.Places.{content_there, order_at};
ghost use Rattle.php_lib.specs.Answers.{ComesTo};
ghost use Rattle.php_lib.specs.Comparing.{CanCompare, CanCompareObjects, order_of_found, goes_deeper};
ghost use Rattle.php_glance.specs.Glances.{Tells};

use crate::places::{property_place, step_back, step_to};
use php_base::NoMemory;
use php_glance::{Glance, at_a_glance, is_missing, is_same};
use php_memdef::{Memory, Obj, Place};
use php_value::{ErrorKind, Order, Stopped, order_of_bools};
use std::alloc::Global;

// How many levels of nesting are compared.
pub const LEVELS: usize = 257;

/// How what stands at two places compares: `==`, `<` and the like. What is missing counts as null.
///
/// Arrays and objects are compared part by part, which takes memory for the places of the parts. Of anything else,
/// and of arrays of different counts, no place is made. An object with a string throws `OBJECT_AGAINST_STRING`, and
/// what stands in 257 arrays or objects throws `NESTING_TOO_DEEP`. A text that only a float could hold is the fault
/// `FloatNeeded`.
pub fn compare<M: Memory>(alloc: Global, memory: &M, a: &Place, b: &Place) -> Result<Order, Stopped>
    requires { SomeMeant (M.means memory.now) (CanCompare a.now b.now) }
    ensures value { EachMeant (M.means memory.now)
        (λ m. IsSound m → ComesTo result (order_at m a.now b.now)) }
    ensures takes_no_memory { EachMeant (M.means memory.now)
        (λ m. goes_deeper (content_there m a.now) (content_there m b.now) ≡ false → result ≡ order_at m a.now b.now) }
{
    let left = memory.peek(a);
    let right = memory.peek(b);
    order_by_glance(alloc, memory, a, b, at_a_glance(&left, &right), LEVELS - 1)
}

// So many levels of nesting are left for the parts of the two values.
#[cycle(ordering)]
fn order_by_glance<M: Memory>(
    alloc: Global,
    memory: &M,
    a: &Place,
    b: &Place,
    glance: Glance,
    levels: usize,
) -> Result<Order, Stopped>
    requires can { SomeMeant (M.means memory.now) (CanCompare a.now b.now) }
    requires tells { EachMeant (M.means memory.now)
        (λ m. Tells (order_nested m levels) m (content_there m a.now) (content_there m b.now) glance) }
    ensures value { EachMeant (M.means memory.now)
        (λ m. IsSound m → ComesTo result (order_by_rules (order_nested m levels) m (content_there m a.now) (content_there m b.now))) }
    ensures takes_no_memory { EachMeant (M.means memory.now)
        (λ m. goes_deeper (content_there m a.now) (content_there m b.now) ≡ false
        → result ≡ order_by_rules (order_nested m levels) m (content_there m a.now) (content_there m b.now)) }
{
    match glance {
        Glance::Known(order) => Ok(order),
        Glance::Refused(stopped) => Err(stopped),
        Glance::Arrays => order_of_elements(alloc, memory, a, b, levels),
        Glance::Objects(g, h) => order_of_objects(alloc, memory, g, h, levels),
    }
}

// A part with the part of its name on the right, with so many levels left for both.
#[cycle(ordering)]
fn order_of_places<M: Memory>(
    alloc: Global,
    memory: &M,
    a: &Place,
    b: &Place,
    levels: usize,
) -> Result<Order, Stopped>
    requires { SomeMeant (M.means memory.now) (CanCompare a.now b.now) }
    ensures { EachMeant (M.means memory.now)
        (λ m. IsSound m → ComesTo result (order_of_found (order_nested m levels) (found m a.now) (found m b.now))) }
{
    let right = memory.peek(b);
    if is_missing(&right) {
        return Ok(Order::Apart);
    }
    if levels == 0 {
        return Err(Stopped::Throws(ErrorKind::NESTING_TOO_DEEP));
    }
    let left = memory.peek(a);
    order_by_glance(alloc, memory, a, b, at_a_glance(&left, &right), levels - 1)
}

// Two arrays of as many entries: each of the left one with that of its key on the right.
#[cycle(ordering)]
fn order_of_elements<M: Memory>(
    alloc: Global,
    memory: &M,
    a: &Place,
    b: &Place,
    levels: usize,
) -> Result<Order, Stopped>
    requires { SomeMeant (M.means memory.now) (CanCompare a.now b.now) }
    ensures { EachMeant (M.means memory.now)
        (λ m. IsSound m → (s t : Listing ℕ) → found m a.now ≡ Some (array s) → found m b.now ≡ Some (array t)
        → ComesTo result (order_of_pairs (order_nested m levels) m (element_pairs s.entries t))) }
{
    let mut left = a.copy()?;
    let mut right = b.copy()?;
    let mut serial = 0;
    let mut near = 0;
    while let Some((next, key)) = memory.entry_after_near(a, serial, &mut near) {
        serial = next;
        step_to(&mut left, key)?;
        step_to(&mut right, key)?;
        let order = order_of_places(alloc, memory, &left, &right, levels)?;
        if !is_same(order) {
            return Ok(order);
        }
        step_back(&mut left);
        step_back(&mut right);
    }
    Ok(Order::Same)
}

// Two different objects, by their classes and then by their properties.
#[cycle(ordering)]
fn order_of_objects<M: Memory>(
    alloc: Global,
    memory: &M,
    g: Obj,
    h: Obj,
    levels: usize,
) -> Result<Order, Stopped>
    requires { SomeMeant (M.means memory.now) (CanCompareObjects g.0 h.0) }
    ensures { EachMeant (M.means memory.now)
        (λ m. IsSound m → ComesTo result (order_of_members (order_nested m levels) m (object_of m g.0) (object_of m h.0))) }
{
    if memory.class_of(g) != memory.class_of(h) {
        return Ok(Order::Apart);
    }
    let order = order_of_property_counts(memory, g, h)?;
    if !is_same(order) {
        return Ok(order);
    }
    order_of_properties(alloc, memory, g, h, levels)
}

// Each property of the left object with that of its name on the right.
#[cycle(ordering)]
fn order_of_properties<M: Memory>(
    alloc: Global,
    memory: &M,
    g: Obj,
    h: Obj,
    levels: usize,
) -> Result<Order, Stopped>
    requires { SomeMeant (M.means memory.now) (CanCompareObjects g.0 h.0) }
    ensures { EachMeant (M.means memory.now)
        (λ m. IsSound m → ComesTo result (order_of_pairs (order_nested m levels) m
        (property_pairs (object_of m g.0).properties (object_of m h.0).properties))) }
{
    for place in 0..usize::MAX {
        let Some(name) = memory.prop_at(g, place) else {
            return Ok(Order::Same);
        };
        let left = property_place(alloc, g, name)?;
        let right = property_place(alloc, h, name)?;
        let order = order_of_places(alloc, memory, &left, &right, levels)?;
        if !is_same(order) {
            return Ok(order);
        }
    }
    Err(Stopped::NoMemory)
}

// The object with fewer properties is less. More of them than a number can count are more than any memory holds.
fn order_of_property_counts<M: Memory>(memory: &M, g: Obj, h: Obj) -> Result<Order, NoMemory>
    requires { SomeMeant (M.means memory.now) (CanCompareObjects g.0 h.0) }
    ensures { EachMeant (M.means memory.now)
        (λ m. IfOk result (λ o. o ≡ order_by (nat_cmp (length (object_of m g.0).properties) (length (object_of m h.0).properties)))) }
{
    for place in 0..usize::MAX {
        let left = memory.prop_at(g, place).is_some();
        let right = memory.prop_at(h, place).is_some();
        if !left {
            return Ok(order_of_bools(false, right));
        }
        if !right {
            return Ok(Order::More);
        }
    }
    Err(NoMemory)
}
