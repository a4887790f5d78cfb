// New stores for steps that lead nowhere yet.
ghost use Rattle.std.specs.Prelude.{◌≡◌, ◌≤◌, ℕ, List, [], length, drop, IfOk, OnErr, IsSome};
ghost use Rattle.php_memdef.specs.Numbered.{numbered};
ghost use Rattle.php_memplain_cells.specs.declared.cells.Cells.{Cells};
ghost use Rattle.php_memplain_cells.specs.Seen.{content_seen, stores_seen};
ghost use Rattle.php_memplain_cells.specs.Counts.{count_of_store};
ghost use Rattle.php_memplain_copy.specs.More.{StoresGrown};
ghost use Rattle.php_memplain_writes.specs.Chains.{PutsElement, ChainTo, NewChain};
ghost use Rattle.php_memplain_writes.specs.Making.{IsReady, IsChained};

use crate::growing::one_element;
use php_base::{Ledger, NoMemory};
use php_memdef::{Path, Step};
use php_memplain_cells::{Content, Store};
use php_memplain_copy::put_new;
use slab::Slab;
use std::alloc::Global;

// A new store with an array, whose one element the step leads to.
fn put_element(
    alloc: Global,
    stores: &mut Slab<Store>,
    done: &mut Vec<usize>,
    step: &Step,
    store: usize,
    ledger: &mut Ledger,
) -> Result<usize, NoMemory>
    ensures put { IfOk result (λ k. PutsElement (stores_seen stores.old) k step.now store (stores_seen stores.new)) }
    ensures chained { IfOk result (λ k. (before : Cells) (owed : List ℕ) → IsChained before owed stores.old done.old.items store → IsChained before owed stores.new done.new.items k) }
    ensures counts { IfOk result (λ k. (j : ℕ) → IsSome (numbered (stores_seen stores.old) j) → IsSome (numbered (stores_seen stores.new) j) × (count_of_store stores.new j ≡ count_of_store stores.old j)) }
    ensures no_memory { OnErr result ((before : Cells) → StoresGrown before.stores stores.old done.old.items → StoresGrown before.stores stores.new done.new.items) }
    ensures made { ledger.old.made ≤ ledger.new.made }
{
    let Ok(content) = one_element(alloc, step, store, ledger) else {
        return Err(NoMemory);
    };
    match put_new(stores, done, content) {
        Ok(key) => Ok(key),
        Err(_) => Err(NoMemory),
    }
}

// A new store for each step of a path from a place on, from which the steps lead to a store.
pub(crate) fn chain_to(
    alloc: Global,
    stores: &mut Slab<Store>,
    done: &mut Vec<usize>,
    path: &Path,
    from: usize,
    leaf: usize,
    ledger: &mut Ledger,
) -> Result<usize, NoMemory>
    requires { from ≤ length path.now }
    ensures chain { IfOk result (λ top. ChainTo (stores_seen stores.old) leaf (drop from path.now) (stores_seen stores.new) top) }
    ensures chained { IfOk result (λ top. (before : Cells) (owed : List ℕ) → IsChained before owed stores.old done.old.items leaf → IsChained before owed stores.new done.new.items top) }
    ensures counts { IfOk result (λ top. (j : ℕ) → IsSome (numbered (stores_seen stores.old) j) → count_of_store stores.new j ≡ count_of_store stores.old j) }
    ensures no_memory { OnErr result ((before : Cells) (owed : List ℕ) → IsChained before owed stores.old done.old.items leaf → StoresGrown before.stores stores.new done.new.items) }
    ensures made { ledger.old.made ≤ ledger.new.made }
{
    let mut top = leaf;
    let mut at = path.len();
    while at > from {
        at -= 1;
        match put_element(alloc, stores, done, path.step(at), top, ledger) {
            Ok(store) => top = store,
            Err(_) => return Err(NoMemory),
        }
    }
    Ok(top)
}

/// The stores at both ends of a chain.
#[derive(Clone, Copy)]
pub struct Ends {
    pub top: usize,
    pub leaf: usize,
}

/// A new store with null, and one for each step of a path from a place on, which lead there.
pub fn make_chain(
    alloc: Global,
    stores: &mut Slab<Store>,
    done: &mut Vec<usize>,
    path: &Path,
    from: usize,
    ledger: &mut Ledger,
) -> Result<Ends, NoMemory>
    requires { from ≤ length path.now }
    ensures chain { IfOk result (λ e. NewChain (stores_seen stores.old) (drop from path.now) (stores_seen stores.new) e.top e.leaf) }
    ensures chained { IfOk result (λ e. (before : Cells) → IsReady before stores.old done.old.items → IsChained before [] stores.new done.new.items e.top) }
    ensures alone { IfOk result (λ e. count_of_store stores.new e.leaf ≡ 1) }
    ensures no_memory { OnErr result ((before : Cells) → IsReady before stores.old done.old.items → StoresGrown before.stores stores.new done.new.items) }
    ensures made { ledger.old.made ≤ ledger.new.made }
{
    match put_new(stores, done, Content::Null) {
        Ok(leaf) => match chain_to(alloc, stores, done, path, from, leaf, ledger) {
            Ok(top) => Ok(Ends { top, leaf }),
            Err(_) => Err(NoMemory),
        },
        Err(_) => Err(NoMemory),
    }
}
