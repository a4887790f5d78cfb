// The copy of the store of a property, by the rule of elements.
ghost use Rattle.std.specs.Prelude.{◌≡◌, ◌+◌, ◌≤◌, ℕ, List, Option, Box};
ghost use Rattle.std.specs.declared.alloc.Global.{Global};
ghost use Rattle.php_memdef.specs.Sound.{IsLive};
ghost use Rattle.php_memplain_cells.specs.declared.objects.Object.{Object};
ghost use Rattle.php_memplain_cells.specs.declared.cells.Cells.{Cells};
ghost use Rattle.php_memplain_cells.specs.Memory.{memory_seen};
ghost use Rattle.php_memplain_copy.specs.Walking.{IsWhole, IsTaken};
ghost use Rattle.php_memplain_copy.specs.Steps.{SomeElement, IsInside};
ghost use Rattle.php_memplain_objects.specs.Cloning.{SomeInside, StoreIs};

use php_array::Entries;
use php_base::{Ledger, NoMemory};
use php_memplain_cells::{Object, Store};
use php_memplain_copy::{Log, copy_element, put_new};
use php_memplain_walk::copy_array;
use slab::Slab;
use std::alloc::Global;

// The store holds an array that isn't shared: the copy of that goes into a new store. Where the copy begins
// with a store the array without elements is never looked at.
fn put_copy(
    alloc: Global,
    stores: &mut Slab<Store>,
    objects: &mut Vec<Option<Box<Object>>>,
    log: &mut Log,
    none: &Entries<usize>,
    levels: usize,
    store: usize,
    ledger: &mut Ledger,
) -> Result<usize, NoMemory>
    requires { SomeInside stores.old objects.old.items log.old (levels + 1) store }
    ensures copy { (before : Cells) (at_hand : ℕ → ℕ) → IsWhole before → IsTaken before stores.old objects.old.items log.old at_hand → IsLive (memory_seen before) store → IsInside before (levels + 1) store
        → StoreIs before at_hand (levels + 1) store stores.old result stores.new objects.new.items log.new }
    ensures made { ledger.old.made ≤ ledger.new.made }
{
    match copy_array(
        alloc,
        stores,
        objects,
        log,
        none,
        Some(store),
        levels,
        ledger,
    ) {
        Ok(content) => match put_new(stores, &mut log.stores, content) {
            Ok(copy) => Ok(copy),
            Err(_) => Err(NoMemory),
        },
        Err(_) => Err(NoMemory),
    }
}

// The same without an array that the caller has.
fn copy_inside(
    alloc: Global,
    stores: &mut Slab<Store>,
    objects: &mut Vec<Option<Box<Object>>>,
    log: &mut Log,
    levels: usize,
    store: usize,
    ledger: &mut Ledger,
) -> Result<usize, NoMemory>
    requires { SomeInside stores.old objects.old.items log.old (levels + 1) store }
    ensures copy { (before : Cells) (at_hand : ℕ → ℕ) → IsWhole before → IsTaken before stores.old objects.old.items log.old at_hand → IsLive (memory_seen before) store → IsInside before (levels + 1) store
        → StoreIs before at_hand (levels + 1) store stores.old result stores.new objects.new.items log.new }
    ensures made { ledger.old.made ≤ ledger.new.made }
{
    let none = Entries::new(alloc);
    put_copy(alloc, stores, objects, log, &none, levels, store, ledger)
}

/// Copies the store of a property: where it is shared it gets a further holder, and else a new store gets a copy
/// of what it holds.
pub(crate) fn copy_store(
    alloc: Global,
    stores: &mut Slab<Store>,
    objects: &mut Vec<Option<Box<Object>>>,
    log: &mut Log,
    levels: usize,
    store: usize,
    ledger: &mut Ledger,
) -> Result<usize, NoMemory>
    requires { SomeElement stores.old objects.old.items log.old store }
    ensures copy { (before : Cells) (at_hand : ℕ → ℕ) → IsWhole before → IsTaken before stores.old objects.old.items log.old at_hand → IsLive (memory_seen before) store
        → StoreIs before at_hand levels store stores.old result stores.new objects.new.items log.new }
    ensures made { ledger.old.made ≤ ledger.new.made }
{
    match copy_element(stores, objects, log, levels, store) {
        Ok(Some(copy)) => Ok(copy),
        Ok(None) => copy_inside(alloc, stores, objects, log, levels - 1, store, ledger),
        Err(_) => Err(NoMemory),
    }
}
