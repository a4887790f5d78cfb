// The copies of an object's properties.
ghost use Rattle.std.specs.Prelude.{◌≡◌, ◌≤◌, ◌+◌, [], ◌∷◌, ◌++◌, List, length, map, option_map, option_copied, IfOk, OnOk, OnErr};
ghost use Rattle.php_memdef.specs.Contents.{object_of};
ghost use Rattle.php_memdef.specs.Contents as model;
ghost use Rattle.php_memplain_cells.specs.declared.cells.Cells.{Cells};
ghost use Rattle.php_memplain_cells.specs.Seen.{property_seen};
ghost use Rattle.php_memplain_cells.specs.Memory.{memory_seen};
ghost use Rattle.php_memplain_copy.specs.Walking.{IsWhole, IsBegun};
ghost use Rattle.php_memdef.specs.Sound.{IsLive};
ghost use Rattle.php_memplain_objects.specs.Cloning.{nth_of, AreCopied, SomeCopied};

use crate::element::copy_store;
use php_base::NoMemory;
use php_memdef::PropName;
use php_memplain_cells::{Cells, Property};
use php_memplain_copy::Log;
use php_memplain_places::object_at;

// The same name. Its text is shared.
fn copy_name(name: &PropName) -> Result<PropName, NoMemory>
    ensures { IfOk result (λ copy. copy ≡ name.now) }
{
    Ok(PropName {
        name: name.name.share()?,
        seen: name.seen,
    })
}

// The same property, over the same store.
fn same_property(property: &Property) -> Result<Property, NoMemory>
    ensures { IfOk result (λ copy. property_seen copy ≡ property_seen property.now) }
{
    Ok(Property {
        name: copy_name(&property.name)?,
        store: property.store,
    })
}

fn nth(properties: &[Property], place: usize) -> Option<&Property>
    ensures { option_map property_seen (option_copied result) ≡ nth_of (map property_seen properties.now) place }
{
    if place < properties.len() {
        Some(&properties[place])
    } else {
        None
    }
}

// An object's property of a place.
fn nth_property(cells: &Cells, number: u64, place: usize) -> Option<&Property>
    ensures { option_map property_seen (option_copied result) ≡ nth_of (object_of (memory_seen cells.now) number).properties place }
{
    match object_at(cells.objects.as_slice(), number) {
        Some(object) => nth(object.properties.as_slice(), place),
        None => None,
    }
}

fn next_property(cells: &Cells, number: u64, place: usize) -> Result<Option<Property>, NoMemory>
    ensures { IfOk result (λ p. option_map property_seen p ≡ nth_of (object_of (memory_seen cells.now) number).properties place) }
{
    match nth_property(cells, number, place) {
        Some(property) => match same_property(property) {
            Ok(copy) => Ok(Some(copy)),
            Err(_) => Err(NoMemory),
        },
        None => Ok(None),
    }
}

fn put_property(done: &mut Vec<Property>, property: Property) -> Result<(), NoMemory>
    ensures ok { OnOk result (done.new.items ≡ done.old.items ++ property ∷ []) }
{
    done.push(property)?;
    Ok(())
}

// Puts the copy of a property behind those that are done.
fn copy_property(
    cells: &mut Cells,
    log: &mut Log,
    levels: usize,
    property: Property,
    done: &mut Vec<Property>,
) -> Result<(), NoMemory>
    requires { SomeCopied levels (property_seen property) done.old.items cells.old.stores cells.old.objects.items log.old }
    ensures copy { OnOk result ((before : Cells) (passed : List model.Property) → IsWhole before → AreCopied before passed levels done.old.items cells.old.stores cells.old.objects.items log.old → IsLive (memory_seen before) property.store
        → AreCopied before (passed ++ property_seen property ∷ []) levels done.new.items cells.new.stores cells.new.objects.items log.new) }
    ensures len { OnOk result (length done.new.items ≡ length done.old.items + 1) }
    ensures no_memory { OnErr result ((before : Cells) (passed : List model.Property) → IsWhole before → AreCopied before passed levels done.old.items cells.old.stores cells.old.objects.items log.old → IsLive (memory_seen before) property.store
        → IsBegun before cells.new.stores cells.new.objects.items log.new) }
    ensures blocks { cells.new.blocks ≡ cells.old.blocks }
    ensures statics { cells.new.statics ≡ cells.old.statics }
    ensures made { cells.old.ledger.made ≤ cells.new.ledger.made }
{
    match copy_store(
        cells.alloc,
        &mut cells.stores,
        &mut cells.objects,
        log,
        levels,
        property.store,
        &mut cells.ledger,
    ) {
        Ok(store) => {
            let copy = Property {
                name: property.name,
                store,
            };
            match put_property(done, copy) {
                Ok(()) => Ok(()),
                Err(_) => Err(NoMemory),
            }
        }
        Err(_) => Err(NoMemory),
    }
}

/// Copies the properties of an object in their order, and enters in the log what that takes. Each turn takes a
/// property, so no memory holds what more turns than the bound would copy.
pub(crate) fn copy_properties(
    cells: &mut Cells,
    log: &mut Log,
    levels: usize,
    number: u64,
) -> Result<Vec<Property>, NoMemory>
    requires whole { IsWhole cells.old }
    requires nothing { (log.old.stores.items ≡ []) × (log.old.handles.items ≡ []) }
    ensures ok { IfOk result (λ ps. AreCopied cells.old (object_of (memory_seen cells.old) number).properties levels ps.items cells.new.stores cells.new.objects.items log.new) }
    ensures no_memory { OnErr result (IsBegun cells.old cells.new.stores cells.new.objects.items log.new) }
    ensures blocks { cells.new.blocks ≡ cells.old.blocks }
    ensures statics { cells.new.statics ≡ cells.old.statics }
    ensures made { cells.old.ledger.made ≤ cells.new.ledger.made }
{
    let mut done = Vec::new(cells.alloc);
    for _turn in 0..u64::MAX {
        match next_property(cells, number, done.len()) {
            Ok(Some(property)) => match copy_property(cells, log, levels, property, &mut done) {
                Ok(()) => {}
                Err(_) => return Err(NoMemory),
            },
            Ok(None) => return Ok(done),
            Err(_) => return Err(NoMemory),
        }
    }
    Err(NoMemory)
}
