// Variables and properties that are taken out by their names.
ghost use Rattle.std.specs.Prelude.{◌≡◌, length, IfSome, IfNone, IsSome};
ghost use Rattle.slab.specs.Slab.{ContainsKey};
ghost use Rattle.php_memdef.specs.Numbered.{numbered};
ghost use Rattle.php_memdef.specs.Contents.{scope_of, object_of};
ghost use Rattle.php_memdef.specs.Places as places;
ghost use Rattle.php_memdef.specs.Places.{prop_name_eq};
ghost use Rattle.php_memdef.specs.Conditions.{IsBase};
ghost use Rattle.php_memdef.specs.Writes.{without_variable, variable_removed, property_removed, base_removed};
ghost use Rattle.php_memplain_cells.specs.Seen.{scope_seen, object_seen, objects_seen};
ghost use Rattle.php_memplain_cells.specs.Counts.{AreSameHandles};
ghost use Rattle.php_memplain_cells.specs.Memory.{memory_seen, IsCounted};
ghost use Rattle.php_memplain_changes.specs.Taken.{Takes};
ghost use Rattle.php_memplain_changes.specs.Named.{has_name, has_prop_name, NoneBefore, IsFirst, object_in, object_without, without_property_at};

use php_memdef::{Base, PropName, Seen};
use php_memplain_cells::{Block, Cells, Object, Property, Variable};

fn is_named(variable: &Variable, name: u32) -> bool
    ensures { result ≡ has_name name variable.now }
{
    name == variable.name
}

// Where the variable of a name stands.
fn variable_place(variables: &Vec<Variable>, name: u32) -> Option<usize>
    ensures some { IfSome result (λ k. IsFirst (has_name name) variables.now.items k) }
    ensures none { IfNone result (NoneBefore (has_name name) variables.now.items (length variables.now.items)) }
{
    let mut at = 0;
    while at < variables.len() {
        let variable = &variables[at];
        if is_named(variable, name) {
            return Some(at);
        }
        at += 1;
    }
    None
}

// Takes the variable of a name out, where there is one, and hands out its store.
fn take_from_block(block: &mut Block, name: u32) -> Option<usize>
    ensures seen { scope_seen block.new ≡ record (scope_seen block.old) { variables = without_variable name (scope_seen block.old).variables } }
    ensures store { result ≡ places.variable_store (scope_seen block.old).variables name }
    ensures waiting { block.new.waiting ≡ block.old.waiting }
{
    match variable_place(&block.variables, name) {
        Some(at) => {
            let variable = block.variables.remove(at);
            Some(variable.store)
        }
        None => None,
    }
}

fn take_variable(cells: &mut Cells, block: usize, name: u32) -> Option<usize>
    requires counted { IsCounted cells.old }
    requires block { ContainsKey cells.old.blocks block }
    ensures { Takes cells.old cells.new result (λ b. variable_removed (places.variable_store (scope_of (memory_seen cells.old) block).variables name) (memory_seen cells.old) b block name) }
{
    take_from_block(&mut cells.blocks[block], name)
}

fn is_seen_alike(one: Seen, other: Seen) -> bool
    ensures { result ≡ places.seen_eq one other }
{
    match (one, other) {
        (Seen::Public, Seen::Public) | (Seen::Protected, Seen::Protected) => true,
        (Seen::Private(class), Seen::Private(another)) => class == another,
        (Seen::Public, Seen::Protected | Seen::Private(_))
        | (Seen::Protected, Seen::Public | Seen::Private(_))
        | (Seen::Private(_), Seen::Public | Seen::Protected) => false,
    }
}

fn is_property_named(property: &Property, name: &PropName) -> bool
    ensures { result ≡ has_prop_name name.now property.now }
{
    if name.name == property.name.name {
        is_seen_alike(name.seen, property.name.seen)
    } else {
        false
    }
}

// Where the property of a name stands.
fn property_place(properties: &Vec<Property>, name: &PropName) -> Option<usize>
    ensures some { IfSome result (λ k. IsFirst (has_prop_name name.now) properties.now.items k) }
    ensures none { IfNone result (NoneBefore (has_prop_name name.now) properties.now.items (length properties.now.items)) }
{
    let mut at = 0;
    while at < properties.len() {
        let property = &properties[at];
        if is_property_named(property, name) {
            return Some(at);
        }
        at += 1;
    }
    None
}

// Takes the property of a name out, where there is one, and hands out its store.
fn take_from_object(object: &mut Object, name: &PropName) -> Option<usize>
    ensures seen { object_seen object.new ≡ object_without name.now (object_seen object.old) }
    ensures store { result ≡ places.property_store (object_seen object.old).properties name.now }
    ensures holders { object.new.holders ≡ object.old.holders }
{
    match property_place(&object.properties, name) {
        Some(at) => {
            let property = object.properties.remove(at);
            Some(property.store)
        }
        None => None,
    }
}

// The same of the object of a number.
fn take_from_objects(
    objects: &mut Vec<Option<Box<Object>>>,
    number: u64,
    name: &PropName,
) -> Option<usize>
    requires { IsSome (numbered (objects_seen objects.old.items) number) }
    ensures seen { objects_seen objects.new.items ≡ without_property_at name.now (objects_seen objects.old.items) number }
    ensures store { result ≡ places.property_store (object_in (objects_seen objects.old.items) number).properties name.now }
    ensures holders { AreSameHandles objects.old.items objects.new.items }
    ensures len { length objects.new.items ≡ length objects.old.items }
{
    let place = (number - 1) as usize;
    let Some(mut object) = objects[place].take() else {
        unreachable!();
    };
    let store = take_from_object(&mut object, name);
    objects[place] = Some(object);
    store
}

fn take_property(cells: &mut Cells, number: u64, name: &PropName) -> Option<usize>
    requires counted { IsCounted cells.old }
    requires object { IsSome (numbered (objects_seen cells.old.objects.items) number) }
    ensures { Takes cells.old cells.new result (λ b. property_removed (places.property_store (object_of (memory_seen cells.old) number).properties name.now) (memory_seen cells.old) b number name.now) }
{
    take_from_objects(&mut cells.objects, number, name)
}

/// Takes the variable or the property that a base is out, where it is there, and hands out its store. A
/// static and a temporary stay.
pub(crate) fn take_base(cells: &mut Cells, base: &Base) -> Option<usize>
    requires counted { IsCounted cells.old }
    requires there { IsBase (memory_seen cells.old) base.now }
    ensures { Takes cells.old cells.new result (λ b. base_removed (memory_seen cells.old) b base.now) }
{
    match base {
        Base::Var(block, name) => take_variable(cells, block.0, name.0),
        Base::Property(obj, name) => take_property(cells, obj.0, name),
        Base::Static(_) => None,
        Base::Temp(_, _) => None,
    }
}
