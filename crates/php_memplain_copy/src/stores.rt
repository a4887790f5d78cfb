// New stores, and stores that get a further holder.
ghost use Rattle.std.specs.Prelude.{◌≡◌, ◌+◌, [], ◌∷◌, Some, false, IsTrue, IfOk, IfSome, IfNone, OnErr};
ghost use Rattle.slab.specs.Slab.{ContainsKey};
ghost use Rattle.php_memplain_cells.specs.Seen.{content_seen, stores_seen};
ghost use Rattle.php_memplain_copy.specs.Copying.{Puts};
ghost use Rattle.php_memplain_copy.specs.More.{AreMore, AreSame, IsNoArray, IsSoundArray};

use php_base::NoMemory;
use php_memplain_cells::{Content, Store};
use slab::Slab;

/// Puts a content into a new store, which one thing holds.
pub fn put_store(stores: &mut Slab<Store>, content: Content) -> Result<usize, NoMemory>
    ensures put { IfOk result (λ k. Puts (stores_seen stores.old) k (content_seen content) (stores_seen stores.new)) }
    ensures more { IfOk result (λ k. AreMore stores.old stores.new (k ∷ [])) }
    ensures no_memory { OnErr result ((stores_seen stores.new ≡ stores_seen stores.old) × AreSame stores.old stores.new) }
{
    let store = Store {
        holders: 1,
        content,
    };
    let Ok(key) = stores.insert(store) else {
        return Err(NoMemory);
    };
    Ok(key)
}

/// A copy of a content that is no array; `None` exactly for an array.
pub fn copy_unless_array(content: &Content) -> Result<Option<Content>, NoMemory>
    ensures copy { IfOk result (λ copy. IfSome copy (λ c. (content_seen c ≡ content_seen content.now) × IsNoArray (content_seen c))) }
    ensures none { IfOk result (λ copy. IfNone copy (IsSoundArray (content_seen content.now))) }
{
    match content {
        Content::Null => Ok(Some(Content::Null)),
        Content::Bool(truth) => Ok(Some(Content::Bool(*truth))),
        Content::Int(number) => Ok(Some(Content::Int(*number))),
        Content::Str(text) => Ok(Some(Content::Str(text.share()?))),
        Content::Object(number) => Ok(Some(Content::Object(*number))),
        Content::Array(entries, _) => {
            let _count = entries.len();
            Ok(None)
        }
    }
}

/// Gives a store a further holder. It answers false, and changes nothing, where the count can't rise.
pub fn raise(stores: &mut Slab<Store>, store: usize) -> bool
    requires { ContainsKey stores.old store }
    ensures seen { stores_seen stores.new ≡ stores_seen stores.old }
    ensures raised { IsTrue result → AreMore stores.old stores.new (store ∷ []) }
    ensures kept { result ≡ false → stores.new ≡ stores.old }
{
    match stores[store].holders.checked_add(1) {
        Some(holders) => {
            stores[store].holders = holders;
            true
        }
        None => false,
    }
}
