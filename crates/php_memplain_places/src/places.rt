// Where a place is.
ghost use Rattle.std.specs.Prelude.{◌≡◌, nat_eq, map, Some, option_map};
ghost use Rattle.php_memdef.specs.Places as places;
ghost use Rattle.php_memdef.specs.Numbered.{numbered};
ghost use Rattle.php_memdef.specs.Contents.{scope_of, object_of};
ghost use Rattle.php_memplain_cells.specs.Seen.{variable_seen, property_seen, item_seen};
ghost use Rattle.php_memplain_cells.specs.Memory.{memory_seen};
ghost use Rattle.php_memplain_places.specs.Spots.{spot_seen};

use crate::objects::object_at;
use crate::spot::{Spot, entries_in, temp_at};
use php_array::Entries;
use php_memdef::{Base, Place, PropName, Seen, Step};
use php_memplain_cells::{Cells, Item, Property, Variable};

fn is_named(variable: &Variable, name: u32) -> bool
    ensures { result ≡ nat_eq name variable.now.name }
{
    name == variable.name
}

// The store of the variable of a name.
fn variable_store(variables: &[Variable], name: u32) -> Option<usize>
    ensures { result ≡ places.variable_store (map variable_seen variables.now) name }
{
    for variable in variables {
        if is_named(variable, name) {
            return Some(variable.store);
        }
    }
    None
}

fn is_seen_alike(one: Seen, other: Seen) -> bool
    ensures { result ≡ places.seen_eq one other }
{
    match (one, other) {
        (Seen::Public, Seen::Public) | (Seen::Protected, Seen::Protected) => true,
        (Seen::Private(class), Seen::Private(another)) => class == another,
        (Seen::Public, Seen::Protected | Seen::Private(_))
        | (Seen::Protected, Seen::Public | Seen::Private(_))
        | (Seen::Private(_), Seen::Public | Seen::Protected) => false,
    }
}

fn is_one_name(one: &PropName, other: &PropName) -> bool
    ensures { result ≡ places.prop_name_eq one.now other.now }
{
    if one.name == other.name {
        is_seen_alike(one.seen, other.seen)
    } else {
        false
    }
}

// The store of the property of a name.
fn property_store(properties: &[Property], name: &PropName) -> Option<usize>
    ensures { result ≡ places.property_store (map property_seen properties.now) name.now }
{
    for property in properties {
        if is_one_name(name, &property.name) {
            return Some(property.store);
        }
    }
    None
}

fn stored(store: Option<usize>) -> Option<Spot>
    ensures { option_map spot_seen result ≡ places.stored_if store }
{
    match store {
        Some(store) => Some(Spot::Stored(store)),
        None => None,
    }
}

fn variable_spot(cells: &Cells, block: usize, name: u32) -> Option<Spot>
    ensures { option_map spot_seen result ≡ places.stored_if (places.variable_store (scope_of (memory_seen cells.now) block).variables name) }
{
    match cells.blocks.get(block) {
        Some(block) => stored(variable_store(block.variables.as_slice(), name)),
        None => None,
    }
}

fn item_spot(item: &Item, block: usize, depth: usize) -> Spot
    ensures { Some (spot_seen result) ≡ places.temp_spot block depth (Some (item_seen item.now)) }
{
    match item {
        Item::Value(_) => Spot::Standing(block, depth),
        Item::Link(store) => Spot::Stored(*store),
    }
}

fn temp_spot(cells: &Cells, number: usize, depth: usize) -> Option<Spot>
    ensures { option_map spot_seen result ≡ places.temp_spot number depth (places.nth_item (scope_of (memory_seen cells.now) number).temps depth) }
{
    match temp_at(cells, number, depth) {
        Some(item) => Some(item_spot(item, number, depth)),
        None => None,
    }
}

fn static_store(statics: &[Option<usize>], number: usize) -> Option<usize>
    ensures { result ≡ numbered statics.now number }
{
    if number < statics.len() {
        statics[number]
    } else {
        None
    }
}

fn property_spot(cells: &Cells, number: u64, name: &PropName) -> Option<Spot>
    ensures { option_map spot_seen result ≡ places.stored_if (places.property_store (object_of (memory_seen cells.now) number).properties name.now) }
{
    match object_at(cells.objects.as_slice(), number) {
        Some(object) => stored(property_store(object.properties.as_slice(), name)),
        None => None,
    }
}

/// Where a base is, where it isn't missing.
pub(crate) fn base_spot(cells: &Cells, base: &Base) -> Option<Spot>
    ensures { option_map spot_seen result ≡ places.base_spot (memory_seen cells.now) base.now }
{
    match base {
        Base::Var(block, name) => variable_spot(cells, block.0, name.0),
        Base::Property(obj, name) => property_spot(cells, obj.0, name),
        Base::Static(id) => stored(static_store(cells.statics.as_slice(), id.0)),
        Base::Temp(block, depth) => temp_spot(cells, block.0, *depth),
    }
}

// The store to which a step leads in an array.
fn step_store(entries: &Entries<usize>, step: &Step) -> Option<usize>
    ensures { result ≡ places.step_store entries.now step.now }
{
    match step {
        Step::At(key) => match entries.get(key) {
            Some(store) => Some(*store),
            None => None,
        },
        Step::Push => None,
    }
}

/// Where one step leads to, where it leads somewhere.
pub(crate) fn next_spot(cells: &Cells, spot: Spot, step: &Step) -> Option<Spot>
    ensures { option_map spot_seen result ≡ places.next_spot (memory_seen cells.now) (Some (spot_seen spot)) step.now }
{
    match entries_in(cells, spot) {
        Some(entries) => stored(step_store(entries, step)),
        None => None,
    }
}

/// Where a place is, where it isn't missing.
pub fn find(cells: &Cells, place: &Place) -> Option<Spot>
    ensures { option_map spot_seen result ≡ places.find_place (memory_seen cells.now) place.now }
{
    let Some(mut spot) = base_spot(cells, &place.base) else {
        return None;
    };
    for at in 0..place.path.len() {
        let Some(next) = next_spot(cells, spot, place.path.step(at)) else {
            return None;
        };
        spot = next;
    }
    Some(spot)
}
