// A base that is to point to a store.
ghost use Rattle.std.specs.Prelude.{◌≡◌, [], length, IfOk, IfSome, IfNone, OnOk, OnErr, IsSome};
ghost use Rattle.slab.specs.Slab.{ContainsKey};
ghost use Rattle.php_memdef.specs.Numbered.{numbered, with_numbered};
ghost use Rattle.php_memdef.specs.Contents.{scope_of, object_of};
ghost use Rattle.php_memdef.specs.Places as places;
ghost use Rattle.php_memdef.specs.Places.{with_scope, with_object, prop_name_eq};
ghost use Rattle.php_memdef.specs.Conditions.{IsBase, IsPointed};
ghost use Rattle.php_memdef.specs.Writes.{with_variable, with_property, base_bound, bound};
ghost use Rattle.php_memplain_cells.specs.Seen.{scope_seen, object_seen, objects_seen};
ghost use Rattle.php_memplain_cells.specs.Counts.{AreSameHandles};
ghost use Rattle.php_memplain_cells.specs.Memory.{memory_seen};
ghost use Rattle.php_memplain_writes.specs.Standing.{AreWaitingKept};
ghost use Rattle.php_memplain_writes.specs.Hanging.{with_static};
ghost use Rattle.php_memplain_writes.specs.Pointing.{has_name, has_prop_name, NoneBefore, IsFirst, property_pointed, property_pointed_at, property_at};

use crate::hanging::{add_property, add_variable, set_static};
use php_base::NoMemory;
use php_memdef::{Base, PropName, Seen};
use php_memplain_cells::{Block, Cells, Object, Property, Variable};
use std::mem;

fn is_named(variable: &Variable, name: u32) -> bool
    ensures { result ≡ has_name name variable.now }
{
    name == variable.name
}

// Where the variable of a name stands.
fn variable_place(variables: &Vec<Variable>, name: u32) -> Option<usize>
    ensures some { IfSome result (λ k. IsFirst (has_name name) variables.now.items k) }
    ensures none { IfNone result (NoneBefore (has_name name) variables.now.items (length variables.now.items)) }
{
    let mut at = 0;
    while at < variables.len() {
        let variable = &variables[at];
        if is_named(variable, name) {
            return Some(at);
        }
        at += 1;
    }
    None
}

// Lets the variable of a name point to a store, and makes it where it isn't there. The store to which it
// pointed before is answered.
fn point_variable(block: &mut Block, name: u32, store: usize) -> Result<Option<usize>, NoMemory>
    ensures before { IfOk result (λ before. before ≡ places.variable_store (scope_seen block.old).variables name) }
    ensures ok { OnOk result (scope_seen block.new ≡ record (scope_seen block.old) { variables = with_variable name store (scope_seen block.old).variables }) }
    ensures no_memory { OnErr result (scope_seen block.new ≡ scope_seen block.old) }
    ensures waiting { block.new.waiting ≡ block.old.waiting }
{
    match variable_place(&block.variables, name) {
        Some(at) => Ok(Some(mem::replace(&mut block.variables[at].store, store))),
        None => match add_variable(block, name, store) {
            Ok(()) => Ok(None),
            Err(_) => Err(NoMemory),
        },
    }
}

fn is_seen_alike(one: Seen, other: Seen) -> bool
    ensures { result ≡ places.seen_eq one other }
{
    match (one, other) {
        (Seen::Public, Seen::Public) | (Seen::Protected, Seen::Protected) => true,
        (Seen::Private(class), Seen::Private(another)) => class == another,
        (Seen::Public, Seen::Protected | Seen::Private(_))
        | (Seen::Protected, Seen::Public | Seen::Private(_))
        | (Seen::Private(_), Seen::Public | Seen::Protected) => false,
    }
}

fn is_property_named(property: &Property, name: &PropName) -> bool
    ensures { result ≡ has_prop_name name.now property.now }
{
    if name.name == property.name.name {
        is_seen_alike(name.seen, property.name.seen)
    } else {
        false
    }
}

// Where the property of a name stands.
fn property_place(properties: &Vec<Property>, name: &PropName) -> Option<usize>
    ensures some { IfSome result (λ k. IsFirst (has_prop_name name.now) properties.now.items k) }
    ensures none { IfNone result (NoneBefore (has_prop_name name.now) properties.now.items (length properties.now.items)) }
{
    let mut at = 0;
    while at < properties.len() {
        let property = &properties[at];
        if is_property_named(property, name) {
            return Some(at);
        }
        at += 1;
    }
    None
}

// Lets the property of a name point to a store, and makes it where it isn't there. The store to which it
// pointed before is answered.
fn point_property(
    object: &mut Object,
    name: &PropName,
    store: usize,
) -> Result<Option<usize>, NoMemory>
    ensures before { IfOk result (λ before. before ≡ places.property_store (object_seen object.old).properties name.now) }
    ensures ok { OnOk result (object_seen object.new ≡ property_pointed name.now store (object_seen object.old)) }
    ensures no_memory { OnErr result (object_seen object.new ≡ object_seen object.old) }
    ensures holders { object.new.holders ≡ object.old.holders }
{
    match property_place(&object.properties, name) {
        Some(at) => Ok(Some(mem::replace(&mut object.properties[at].store, store))),
        None => match add_property(object, name, store) {
            Ok(()) => Ok(None),
            Err(_) => Err(NoMemory),
        },
    }
}

// The same of the object of a number.
fn point_in_object(
    objects: &mut Vec<Option<Box<Object>>>,
    number: u64,
    name: &PropName,
    store: usize,
) -> Result<Option<usize>, NoMemory>
    requires { IsSome (numbered (objects_seen objects.old.items) number) }
    ensures before { IfOk result (λ before. before ≡ property_at name.now (objects_seen objects.old.items) number) }
    ensures ok { OnOk result (objects_seen objects.new.items ≡ property_pointed_at name.now store (objects_seen objects.old.items) number) }
    ensures no_memory { OnErr result (objects_seen objects.new.items ≡ objects_seen objects.old.items) }
    ensures holders { AreSameHandles objects.old.items objects.new.items }
    ensures len { length objects.new.items ≡ length objects.old.items }
{
    let place = (number - 1) as usize;
    let Some(mut object) = objects[place].take() else {
        unreachable!();
    };
    let before = point_property(&mut object, name, store);
    objects[place] = Some(object);
    before
}

// The store of a static.
fn static_store(statics: &Vec<Option<usize>>, number: usize) -> Option<usize>
    ensures { result ≡ numbered statics.now.items number }
{
    if number < statics.len() {
        statics[number]
    } else {
        None
    }
}

fn point_at_variable(
    cells: &mut Cells,
    block: usize,
    name: u32,
    store: usize,
) -> Result<Option<usize>, NoMemory>
    requires { ContainsKey cells.old.blocks block }
    ensures before { IfOk result (λ before. before ≡ places.variable_store (scope_of (memory_seen cells.old) block).variables name) }
    ensures ok { OnOk result (memory_seen cells.new ≡ with_scope (memory_seen cells.old) block (record (scope_of (memory_seen cells.old) block) { variables = with_variable name store (scope_of (memory_seen cells.old) block).variables })) }
    ensures no_memory { OnErr result (memory_seen cells.new ≡ memory_seen cells.old) }
    ensures stores { cells.new.stores ≡ cells.old.stores }
    ensures objects { cells.new.objects ≡ cells.old.objects }
    ensures waiting { AreWaitingKept cells.old.blocks cells.new.blocks }
    ensures ledger { cells.new.ledger ≡ cells.old.ledger }
{
    match point_variable(&mut cells.blocks[block], name, store) {
        Ok(before) => Ok(before),
        Err(_) => Err(NoMemory),
    }
}

fn point_at_property(
    cells: &mut Cells,
    number: u64,
    name: &PropName,
    store: usize,
) -> Result<Option<usize>, NoMemory>
    requires { IsSome (numbered (objects_seen cells.old.objects.items) number) }
    ensures before { IfOk result (λ before. before ≡ property_at name.now (objects_seen cells.old.objects.items) number) }
    ensures ok { OnOk result (memory_seen cells.new ≡ with_object (memory_seen cells.old) number (property_pointed name.now store (object_of (memory_seen cells.old) number))) }
    ensures no_memory { OnErr result (memory_seen cells.new ≡ memory_seen cells.old) }
    ensures stores { cells.new.stores ≡ cells.old.stores }
    ensures objects { AreSameHandles cells.old.objects.items cells.new.objects.items }
    ensures blocks { cells.new.blocks ≡ cells.old.blocks }
    ensures ledger { cells.new.ledger ≡ cells.old.ledger }
{
    match point_in_object(&mut cells.objects, number, name, store) {
        Ok(before) => Ok(before),
        Err(_) => Err(NoMemory),
    }
}

fn point_at_static(
    cells: &mut Cells,
    number: usize,
    store: usize,
) -> Result<Option<usize>, NoMemory>
    ensures before { IfOk result (λ before. before ≡ numbered (memory_seen cells.old).statics number) }
    ensures ok { OnOk result (memory_seen cells.new ≡ with_static (memory_seen cells.old) number store) }
    ensures no_memory { OnErr result (memory_seen cells.new ≡ memory_seen cells.old) }
    ensures stores { cells.new.stores ≡ cells.old.stores }
    ensures objects { cells.new.objects ≡ cells.old.objects }
    ensures blocks { cells.new.blocks ≡ cells.old.blocks }
    ensures ledger { cells.new.ledger ≡ cells.old.ledger }
{
    let before = static_store(&cells.statics, number);
    match set_static(&mut cells.statics, number, store) {
        Ok(()) => Ok(before),
        Err(_) => Err(NoMemory),
    }
}

/// Lets a base point to a store, and makes it where it is missing. The store to which it pointed before is
/// answered. Want of memory changes nothing.
pub(crate) fn point_base(
    cells: &mut Cells,
    base: &Base,
    store: usize,
) -> Result<Option<usize>, NoMemory>
    requires there { IsBase (memory_seen cells.old) base.now }
    requires pointed { IsPointed base.now [] }
    ensures ok { IfOk result (λ before. base_bound (memory_seen cells.old) base.now store ≡ bound (memory_seen cells.new) before) }
    ensures no_memory { OnErr result (memory_seen cells.new ≡ memory_seen cells.old) }
    ensures stores { cells.new.stores ≡ cells.old.stores }
    ensures objects { AreSameHandles cells.old.objects.items cells.new.objects.items }
    ensures waiting { AreWaitingKept cells.old.blocks cells.new.blocks }
    ensures ledger { cells.new.ledger ≡ cells.old.ledger }
{
    match base {
        Base::Var(block, name) => point_at_variable(cells, block.0, name.0, store),
        Base::Property(obj, name) => point_at_property(cells, obj.0, name, store),
        Base::Static(id) => point_at_static(cells, id.0, store),
        Base::Temp(_, _) => unreachable!(),
    }
}
