// What is seen of objects.
ghost use Rattle.std.specs.Prelude.{◌≡◌, map, option_map, option_copied};
ghost use Rattle.php_memdef.specs.Numbered.{numbered};
ghost use Rattle.php_memdef.specs.Objects as objects;
ghost use Rattle.php_memplain_cells.specs.Seen.{property_seen, object_seen, box_seen, objects_seen};
ghost use Rattle.php_memplain_cells.specs.Memory.{memory_seen};

use php_memdef::PropName;
use php_memplain_cells::{Cells, Object, Property};

fn object_in(slot: &Option<Box<Object>>) -> Option<&Object>
    ensures { option_map object_seen (option_copied result) ≡ option_map box_seen slot.now }
{
    match slot {
        Some(object) => Some(&**object),
        None => None,
    }
}

/// The object of a number, where it is there. The first number is 1.
pub fn object_at(objects: &[Option<Box<Object>>], number: u64) -> Option<&Object>
    ensures { option_map object_seen (option_copied result) ≡ numbered (objects_seen objects.now) number }
{
    if number == 0 {
        return None;
    }
    let place = number - 1;
    if place < objects.len() as u64 {
        object_in(&objects[place as usize])
    } else {
        None
    }
}

/// The number of an object's class, 0 where it isn't there.
pub fn class_of(cells: &Cells, number: u64) -> u32
    ensures { result ≡ objects.class_of (memory_seen cells.now) number }
{
    match object_at(cells.objects.as_slice(), number) {
        Some(object) => object.class,
        None => 0,
    }
}

fn name_of(property: &Property) -> &PropName
    ensures { result.now ≡ (property_seen property.now).name }
{
    &property.name
}

fn nth_name(properties: &[Property], place: usize) -> Option<&PropName>
    ensures { option_copied result ≡ objects.nth_property (map property_seen properties.now) place }
{
    if place < properties.len() {
        Some(name_of(&properties[place]))
    } else {
        None
    }
}

/// The name of an object's property of that place in the order of making, the first one at 0.
pub fn prop_at(cells: &Cells, number: u64, place: usize) -> Option<&PropName>
    ensures { option_copied result ≡ objects.property_name (memory_seen cells.now) number place }
{
    match object_at(cells.objects.as_slice(), number) {
        Some(object) => nth_name(object.properties.as_slice(), place),
        None => None,
    }
}

fn is_due(slot: &Option<Box<Object>>) -> bool
    ensures { result ≡ objects.is_due (option_map box_seen slot.now) }
{
    match slot {
        Some(object) => {
            if object.finishing {
                !object.spent
            } else {
                false
            }
        }
        None => false,
    }
}

// The first of these that is due, by its number.
fn first_due(slots: &[Option<Box<Object>>]) -> Option<u64>
    ensures { result ≡ objects.first_due (map (option_map box_seen) slots.now) 1 }
{
    for place in 0..slots.len() {
        if is_due(&slots[place]) {
            return Some(place as u64 + 1);
        }
    }
    None
}

/// The number of the oldest object whose destructor is to be run and wasn't.
pub fn eldest(cells: &Cells) -> Option<u64>
    ensures { result ≡ objects.eldest (memory_seen cells.now) }
{
    first_due(cells.objects.as_slice())
}
