// What a copy has taken, so that it can be given back where memory is wanting.
ghost use Rattle.std.specs.Prelude.{◌≡◌, ◌<◌, ◌++◌, ℕ, List, [], ◌∷◌, Option, Box, IfOk, OnOk, OnErr};
ghost use Rattle.std.specs.declared.alloc.Global.{Global};
ghost use Rattle.slab.specs.Slab.{Slab as Slots, ContainsKey};
ghost use Rattle.php_memdef.specs.Holders.{times, handles_of_content};
ghost use Rattle.php_memplain_cells.specs.declared.stores.Store.{Store};
ghost use Rattle.php_memplain_cells.specs.declared.objects.Object.{Object};
ghost use Rattle.php_memplain_cells.specs.Seen.{content_seen, stores_seen, objects_seen};
ghost use Rattle.php_memplain_cells.specs.Counts.{count_of_object, AreSameHandles};
ghost use Rattle.php_memplain_copy.specs.Copying.{Puts};
ghost use Rattle.php_memplain_copy.specs.More.{AreMore, AreSame, AreMoreHandles, StoresGrown, ObjectsGrown};

use crate::objects::{lower_object, raise_object};
use crate::stores::{put_store, raise};
use php_base::NoMemory;
use php_memplain_cells::{Content, Object, Store, drop_link};
use slab::Slab;

/// The stores and the objects that got a holder since a copy began, each as often as it got one. The new
/// stores are among them.
#[derive(Drop)]
pub struct Log {
    pub stores: Vec<usize>,
    pub handles: Vec<u64>,
}

/// Gives a store a further holder. An answer for want of memory changes nothing.
pub fn keep(stores: &mut Slab<Store>, done: &mut Vec<usize>, store: usize) -> Result<(), NoMemory>
    requires { ContainsKey stores.old store }
    ensures seen { stores_seen stores.new ≡ stores_seen stores.old }
    ensures ok { OnOk result (AreMore stores.old stores.new (store ∷ []) × (done.new.items ≡ done.old.items ++ store ∷ [])) }
    ensures no_memory { OnErr result (AreSame stores.old stores.new × (done.new.items ≡ done.old.items)) }
{
    done.reserve(1)?;
    if !raise(stores, store) {
        return Err(NoMemory);
    }
    match done.push(store) {
        Ok(()) => {}
        Err(_) => unreachable!(),
    }
    Ok(())
}

/// Puts a content into a new store, which one thing holds. Where memory is wanting the content is dropped
/// and nothing else changes.
pub fn put_new(
    stores: &mut Slab<Store>,
    done: &mut Vec<usize>,
    content: Content,
) -> Result<usize, NoMemory>
    ensures put { IfOk result (λ k. Puts (stores_seen stores.old) k (content_seen content) (stores_seen stores.new)) }
    ensures more { IfOk result (λ k. AreMore stores.old stores.new (k ∷ []) × (done.new.items ≡ done.old.items ++ k ∷ [])) }
    ensures no_memory { OnErr result ((stores_seen stores.new ≡ stores_seen stores.old) × (AreSame stores.old stores.new × (done.new.items ≡ done.old.items))) }
{
    done.reserve(1)?;
    let key = put_store(stores, content)?;
    match done.push(key) {
        Ok(()) => {}
        Err(_) => unreachable!(),
    }
    Ok(key)
}

/// Gives the object whose handle a content is a further holder. An answer for want of memory changes
/// nothing.
pub fn hold_object(
    objects: &mut Vec<Option<Box<Object>>>,
    raised: &mut Vec<u64>,
    content: &Content,
) -> Result<(), NoMemory>
    requires { (h : ℕ) → 0 < times h (handles_of_content (content_seen content.now)) → 0 < count_of_object objects.old.items h }
    ensures seen { objects_seen objects.new.items ≡ objects_seen objects.old.items }
    ensures ok { OnOk result (AreMoreHandles objects.old.items objects.new.items (handles_of_content (content_seen content.now))
        × (raised.new.items ≡ raised.old.items ++ handles_of_content (content_seen content.now))) }
    ensures no_memory { OnErr result (AreSameHandles objects.old.items objects.new.items × (raised.new.items ≡ raised.old.items)) }
{
    let Content::Object(number) = content else {
        return Ok(());
    };
    raised.reserve(1)?;
    if !raise_object(objects, *number) {
        return Err(NoMemory);
    }
    match raised.push(*number) {
        Ok(()) => {}
        Err(_) => unreachable!(),
    }
    Ok(())
}

// Takes the holders that stores got away again, the latest first.
fn undo_stores(stores: &mut Slab<Store>, mut done: Vec<usize>)
    requires { (before : Slots Store) × StoresGrown before stores.old done.items }
    ensures { (before : Slots Store) → StoresGrown before stores.old done.items → StoresGrown before stores.new [] }
{
    while let Some(store) = done.pop() {
        drop_link(stores, store);
    }
}

// Takes the holders that objects got away again, the latest first.
fn undo_objects(objects: &mut Vec<Option<Box<Object>>>, mut raised: Vec<u64>)
    requires { (before : List (Option (Box Object Global))) × ObjectsGrown before objects.old.items raised.items }
    ensures { (before : List (Option (Box Object Global))) → ObjectsGrown before objects.old.items raised.items → ObjectsGrown before objects.new.items [] }
{
    while let Some(number) = raised.pop() {
        lower_object(objects, number);
    }
}

/// Takes all holders that a copy has given away again, and so the new stores.
pub fn undo(stores: &mut Slab<Store>, objects: &mut Vec<Option<Box<Object>>>, log: Log)
    requires stores { (before : Slots Store) × StoresGrown before stores.old log.stores.items }
    requires objects { (before : List (Option (Box Object Global))) × ObjectsGrown before objects.old.items log.handles.items }
    ensures stores { (before : Slots Store) → StoresGrown before stores.old log.stores.items → StoresGrown before stores.new [] }
    ensures objects { (before : List (Option (Box Object Global))) → ObjectsGrown before objects.old.items log.handles.items → ObjectsGrown before objects.new.items [] }
{
    let Log {
        stores: done,
        handles,
    } = log;
    undo_stores(stores, done);
    undo_objects(objects, handles);
}
