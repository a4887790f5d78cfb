// New stores that are hung up where a base is missing.
ghost use Rattle.std.specs.Prelude.{◌≡◌, ◌<◌, ◌≤◌, ◌++◌, ℕ, [], ◌∷◌, Some, None, length, IfOk, OnOk, OnErr, IsSome};
ghost use Rattle.slab.specs.Slab.{ContainsKey};
ghost use Rattle.php_memdef.specs.Numbered.{numbered, with_numbered};
ghost use Rattle.php_memdef.specs.Contents.{scope_of, object_of};
ghost use Rattle.php_memdef.specs.Places.{with_scope, with_object};
ghost use Rattle.php_memdef.specs.Conditions.{IsBase};
ghost use Rattle.php_memplain_cells.specs.Seen.{scope_seen, object_seen, objects_seen};
ghost use Rattle.php_memplain_cells.specs.Counts.{AreSameHandles};
ghost use Rattle.php_memplain_cells.specs.Memory.{memory_seen};
ghost use Rattle.php_memplain_writes.specs.Standing.{AreWaitingKept};
ghost use Rattle.php_memplain_writes.specs.Reached.{IsNoTemp, with_base};
ghost use Rattle.php_memplain_writes.specs.Hanging.{variable_added, property_added, property_added_at, with_static};

use php_base::NoMemory;
use php_memdef::{Base, PropName};
use php_memplain_cells::{Block, Cells, Object, Property, Variable};

pub(crate) fn add_variable(block: &mut Block, name: u32, store: usize) -> Result<(), NoMemory>
    ensures ok { OnOk result (scope_seen block.new ≡ variable_added name store (scope_seen block.old)) }
    ensures no_memory { OnErr result (scope_seen block.new ≡ scope_seen block.old) }
    ensures waiting { block.new.waiting ≡ block.old.waiting }
{
    block.variables.push(Variable { name, store })?;
    Ok(())
}

fn copy_name(name: &PropName) -> Result<PropName, NoMemory>
    ensures { IfOk result (λ n. n ≡ name.now) }
{
    Ok(PropName {
        name: name.name.share()?,
        seen: name.seen,
    })
}

pub(crate) fn add_property(
    object: &mut Object,
    name: &PropName,
    store: usize,
) -> Result<(), NoMemory>
    ensures ok { OnOk result (object_seen object.new ≡ property_added name.now store (object_seen object.old)) }
    ensures no_memory { OnErr result (object_seen object.new ≡ object_seen object.old) }
    ensures holders { object.new.holders ≡ object.old.holders }
{
    let name = copy_name(name)?;
    object.properties.push(Property { name, store })?;
    Ok(())
}

fn add_to_object(
    objects: &mut Vec<Option<Box<Object>>>,
    number: u64,
    name: &PropName,
    store: usize,
) -> Result<(), NoMemory>
    requires { IsSome (numbered (objects_seen objects.old.items) number) }
    ensures ok { OnOk result (objects_seen objects.new.items ≡ property_added_at name.now store (objects_seen objects.old.items) number) }
    ensures no_memory { OnErr result (objects_seen objects.new.items ≡ objects_seen objects.old.items) }
    ensures holders { AreSameHandles objects.old.items objects.new.items }
    ensures len { length objects.new.items ≡ length objects.old.items }
{
    let place = (number - 1) as usize;
    let Some(mut object) = objects[place].take() else {
        unreachable!();
    };
    let added = add_property(&mut object, name, store);
    objects[place] = Some(object);
    added
}

// Lets a static point to a store. Those before it that are missing are noted as missing.
pub(crate) fn set_static(
    statics: &mut Vec<Option<usize>>,
    number: usize,
    store: usize,
) -> Result<(), NoMemory>
    ensures ok { OnOk result (statics.new.items ≡ with_numbered statics.old.items number (Some store)) }
    ensures no_memory { OnErr result (statics.new.items ≡ statics.old.items) }
{
    let count = statics.len();
    if number < count {
        statics[number] = Some(store);
        return Ok(());
    }
    let Some(more) = (number - count).checked_add(1) else {
        return Err(NoMemory);
    };
    statics.reserve(more)?;
    while statics.len() < number {
        match statics.push(None) {
            Ok(()) => {}
            Err(_) => unreachable!(),
        }
    }
    match statics.push(Some(store)) {
        Ok(()) => {}
        Err(_) => unreachable!(),
    }
    Ok(())
}

fn hang_variable(cells: &mut Cells, block: usize, name: u32, store: usize) -> Result<(), NoMemory>
    requires { ContainsKey cells.old.blocks block }
    ensures ok { OnOk result (memory_seen cells.new ≡ with_scope (memory_seen cells.old) block (variable_added name store (scope_of (memory_seen cells.old) block))) }
    ensures no_memory { OnErr result (memory_seen cells.new ≡ memory_seen cells.old) }
    ensures stores { cells.new.stores ≡ cells.old.stores }
    ensures objects { cells.new.objects ≡ cells.old.objects }
    ensures waiting { AreWaitingKept cells.old.blocks cells.new.blocks }
    ensures ledger { cells.new.ledger ≡ cells.old.ledger }
{
    match add_variable(&mut cells.blocks[block], name, store) {
        Ok(()) => Ok(()),
        Err(_) => Err(NoMemory),
    }
}

fn hang_property(
    cells: &mut Cells,
    number: u64,
    name: &PropName,
    store: usize,
) -> Result<(), NoMemory>
    requires { IsSome (numbered (objects_seen cells.old.objects.items) number) }
    ensures ok { OnOk result (memory_seen cells.new ≡ with_object (memory_seen cells.old) number (property_added name.now store (object_of (memory_seen cells.old) number))) }
    ensures no_memory { OnErr result (memory_seen cells.new ≡ memory_seen cells.old) }
    ensures stores { cells.new.stores ≡ cells.old.stores }
    ensures objects { AreSameHandles cells.old.objects.items cells.new.objects.items }
    ensures blocks { cells.new.blocks ≡ cells.old.blocks }
    ensures ledger { cells.new.ledger ≡ cells.old.ledger }
{
    match add_to_object(&mut cells.objects, number, name, store) {
        Ok(()) => Ok(()),
        Err(_) => Err(NoMemory),
    }
}

fn hang_static(cells: &mut Cells, number: usize, store: usize) -> Result<(), NoMemory>
    ensures ok { OnOk result (memory_seen cells.new ≡ with_static (memory_seen cells.old) number store) }
    ensures no_memory { OnErr result (memory_seen cells.new ≡ memory_seen cells.old) }
    ensures stores { cells.new.stores ≡ cells.old.stores }
    ensures objects { cells.new.objects ≡ cells.old.objects }
    ensures blocks { cells.new.blocks ≡ cells.old.blocks }
    ensures ledger { cells.new.ledger ≡ cells.old.ledger }
{
    match set_static(&mut cells.statics, number, store) {
        Ok(()) => Ok(()),
        Err(_) => Err(NoMemory),
    }
}

/// Lets a base that is missing point to a store. Want of memory changes nothing.
pub(crate) fn add_base(cells: &mut Cells, base: &Base, store: usize) -> Result<(), NoMemory>
    requires there { IsBase (memory_seen cells.old) base.now }
    requires no_temp { IsNoTemp base.now }
    ensures ok { OnOk result (memory_seen cells.new ≡ with_base base.now (memory_seen cells.old) store) }
    ensures no_memory { OnErr result (memory_seen cells.new ≡ memory_seen cells.old) }
    ensures stores { cells.new.stores ≡ cells.old.stores }
    ensures objects { AreSameHandles cells.old.objects.items cells.new.objects.items }
    ensures waiting { AreWaitingKept cells.old.blocks cells.new.blocks }
    ensures ledger { cells.new.ledger ≡ cells.old.ledger }
{
    match base {
        Base::Var(block, name) => hang_variable(cells, block.0, name.0, store),
        Base::Property(obj, name) => hang_property(cells, obj.0, name, store),
        Base::Static(id) => hang_static(cells, id.0, store),
        Base::Temp(_, _) => unreachable!(),
    }
}
