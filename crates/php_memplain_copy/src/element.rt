// The copy of one element.
ghost use Rattle.std.specs.Prelude.{◌≡◌, ◌<◌, ◌≤◌, ℕ, List, Option, Some, Box};
ghost use Rattle.std.specs.declared.alloc.Global.{Global};
ghost use Rattle.slab.specs.Slab.{ContainsKey, get};
ghost use Rattle.php_memdef.specs.Sound.{IsLive};
ghost use Rattle.php_memplain_cells.specs.declared.stores.Store.{Store};
ghost use Rattle.php_memplain_cells.specs.declared.objects.Object.{Object};
ghost use Rattle.php_memplain_cells.specs.declared.cells.Cells.{Cells};
ghost use Rattle.php_memplain_cells.specs.Seen.{content_seen};
ghost use Rattle.php_memplain_cells.specs.Counts.{count_of_store};
ghost use Rattle.php_memplain_cells.specs.Memory.{memory_seen};
ghost use Rattle.php_memplain_copy.specs.More.{IsNoArray};
ghost use Rattle.php_memplain_copy.specs.Walking.{IsWhole, IsTaken};
ghost use Rattle.php_memplain_copy.specs.Steps.{SomeElement, ElementIs};

use crate::log::{Log, hold_object, keep, put_new};
use crate::stores::copy_unless_array;
use php_base::NoMemory;
use php_memplain_cells::{Content, Object, Store};
use slab::Slab;

// The store is shared: it gets a further holder.
fn keep_element(
    stores: &mut Slab<Store>,
    log: &mut Log,
    store: usize,
) -> Result<Option<usize>, NoMemory>
    requires { ContainsKey stores.old store }
    ensures { (before : Cells) (objects : List (Option (Box Object Global))) (at_hand : ℕ → ℕ) (levels : ℕ) → IsWhole before → IsTaken before stores.old objects log.old at_hand
        → IsLive (memory_seen before) store → 1 < count_of_store stores.old store
        → ElementIs before at_hand levels store stores.old result stores.new objects log.new }
{
    match keep(stores, &mut log.stores, store) {
        Ok(()) => Ok(Some(store)),
        Err(_) => Err(NoMemory),
    }
}

// A copy of what the store holds, which is no array, goes into a new store.
fn put_copy(
    stores: &mut Slab<Store>,
    objects: &mut Vec<Option<Box<Object>>>,
    log: &mut Log,
    store: usize,
    content: Content,
) -> Result<Option<usize>, NoMemory>
    requires { SomeElement stores.old objects.old.items log.old store × ((x : Store) × ((get stores.old store ≡ Some x) × (content_seen content ≡ content_seen x.content))) }
    ensures { (before : Cells) (at_hand : ℕ → ℕ) (levels : ℕ) (x : Store) → IsWhole before → IsTaken before stores.old objects.old.items log.old at_hand
        → IsLive (memory_seen before) store → 0 < levels → get stores.old store ≡ Some x → x.holders ≤ 1 → content_seen content ≡ content_seen x.content → IsNoArray (content_seen content)
        → ElementIs before at_hand levels store stores.old result stores.new objects.new.items log.new }
{
    match hold_object(objects, &mut log.handles, &content) {
        Ok(()) => match put_new(stores, &mut log.stores, content) {
            Ok(copy) => Ok(Some(copy)),
            Err(_) => Err(NoMemory),
        },
        Err(_) => Err(NoMemory),
    }
}

/// Copies the store of an element: where it is shared it gets a further holder, and where it holds no array
/// a new store gets a copy of what it holds. It answers nothing, and does nothing, for an array that isn't
/// shared, which has to be copied first.
///
/// No array lies deeper in others than there are stores, so the levels don't end before the arrays do.
pub fn copy_element(
    stores: &mut Slab<Store>,
    objects: &mut Vec<Option<Box<Object>>>,
    log: &mut Log,
    levels: usize,
    store: usize,
) -> Result<Option<usize>, NoMemory>
    requires { SomeElement stores.old objects.old.items log.old store }
    ensures { (before : Cells) (at_hand : ℕ → ℕ) → IsWhole before → IsTaken before stores.old objects.old.items log.old at_hand → IsLive (memory_seen before) store
        → ElementIs before at_hand levels store stores.old result stores.new objects.new.items log.new }
{
    if levels == 0 {
        return Err(NoMemory);
    }
    if stores[store].holders > 1 {
        return keep_element(stores, log, store);
    }
    match copy_unless_array(&stores[store].content) {
        Ok(Some(content)) => put_copy(stores, objects, log, store, content),
        Ok(None) => Ok(None),
        Err(_) => Err(NoMemory),
    }
}
