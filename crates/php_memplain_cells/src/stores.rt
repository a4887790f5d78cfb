// Stores and their holders.
ghost use Rattle.std.specs.Prelude.{◌≡◌, ◌+◌, ◌<◌, ◌≤◌, None, Some, IfSome, IfNone, [], ◌∷◌};
ghost use Rattle.slab.specs.Slab.{ContainsKey};
ghost use Rattle.php_memdef.specs.Numbered.{numbered, with_numbered};
ghost use Rattle.php_memdef.specs.Holders.{times};
ghost use Rattle.php_memplain_cells.specs.Seen.{content_seen, stores_seen};
ghost use Rattle.php_memplain_cells.specs.Counts.{count_of_store, AreFewer};

use crate::content::Content;
use slab::Slab;

/// A store, with the number of those that hold it.
#[derive(Drop)]
pub struct Store {
    pub holders: usize,
    pub content: Content,
}

/// Takes one holder of a store away. Where it was the last one the store goes, and its content is
/// handed out.
pub fn drop_link(stores: &mut Slab<Store>, store: usize) -> Option<Content>
    requires { 0 < count_of_store stores.old store }
    ensures fewer { AreFewer stores.old stores.new store }
    ensures kept { IfNone result ((1 < count_of_store stores.old store) × (stores_seen stores.new ≡ stores_seen stores.old)) }
    ensures gone { IfSome result (λ c. (count_of_store stores.old store ≡ 1)
        × (numbered (stores_seen stores.old) store ≡ Some (content_seen c))
        × (stores_seen stores.new ≡ with_numbered (stores_seen stores.old) store None)) }
{
    if stores[store].holders > 1 {
        stores[store].holders -= 1;
        return None;
    }
    let cell = stores.remove(store);
    Some(cell.content)
}
