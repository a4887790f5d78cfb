// Handles of objects on top of a block.
ghost use Rattle.std.specs.Prelude.{◌≡◌, ◌<◌, ◌≤◌, ◌++◌, ℕ, [], ◌∷◌, length, Some, IfOk, OnOk, OnErr};
ghost use Rattle.std.specs.VecDeque.{deque_len, deque_capacity};
ghost use Rattle.slab.specs.Slab.{ContainsKey};
ghost use Rattle.php_memdef.specs.Contents as model;
ghost use Rattle.php_memdef.specs.Contents.{scope_of};
ghost use Rattle.php_memdef.specs.Conditions.{HasHandleOnTop};
ghost use Rattle.php_memdef.specs.Places.{nth_item};
ghost use Rattle.php_memdef.specs.Temporaries.{rest_of, top_of};
ghost use Rattle.php_memplain_cells.specs.Seen.{item_seen, scope_seen};
ghost use Rattle.php_memplain_cells.specs.Memory.{memory_seen};
ghost use Rattle.php_memplain_copy.specs.Walking.{IsWhole};
ghost use Rattle.php_memplain_content.specs.Copies.{IsBack};
ghost use Rattle.php_memplain_objects.specs.Cloning.{IsCloneOnTop};

use crate::cloning::make_clone;
use php_base::NoMemory;
use php_memplain_cells::{Block, Cells, Content, Item};
use php_memplain_places::temp_at;

fn number_of_handle(item: &Item) -> u64
    requires { (h : ℕ) × (item_seen item.now ≡ model.value (model.object h)) }
    ensures { item_seen item.now ≡ model.value (model.object result) }
{
    match item {
        Item::Value(Content::Object(number)) => *number,
        Item::Value(
            Content::Null
            | Content::Bool(_)
            | Content::Int(_)
            | Content::Str(_)
            | Content::Array(_, _),
        )
        | Item::Link(_) => unreachable!(),
    }
}

// The number of the object whose handle is on top of a block.
fn top_handle(cells: &Cells, block: usize) -> u64
    requires { HasHandleOnTop (memory_seen cells.now) block }
    ensures { nth_item (scope_of (memory_seen cells.now) block).temps 0 ≡ Some (model.value (model.object result)) }
{
    let Some(item) = temp_at(cells, block, 0) else {
        unreachable!();
    };
    number_of_handle(item)
}

// Makes room for one more item that falls.
fn reserve_fall(block: &mut Block) -> Result<(), NoMemory>
    ensures seen { scope_seen block.new ≡ scope_seen block.old }
    ensures room { OnOk result (deque_len block.new.waiting < deque_capacity block.new.waiting) }
{
    match block.waiting.reserve(1) {
        Ok(()) => Ok(()),
        Err(_) => Err(NoMemory),
    }
}

// Puts a handle in the place of the item on top, which is handed out.
fn swap_handle(block: &mut Block, number: u64) -> Item
    requires { 0 < length block.old.temps.items }
    ensures seen { scope_seen block.new ≡ record (scope_seen block.old) { temps = model.value (model.object number) ∷ rest_of (scope_seen block.old).temps } }
    ensures top { item_seen result ≡ top_of (scope_seen block.old).temps }
    ensures waiting { block.new.waiting ≡ block.old.waiting }
{
    let Some(top) = block.temps.pop() else {
        unreachable!();
    };
    match block.temps.push(Item::Value(Content::Object(number))) {
        Ok(()) => {}
        Err(_) => unreachable!(),
    }
    top
}

// Lets an item fall behind all others.
fn fall_last(block: &mut Block, item: Item)
    requires { deque_len block.old.waiting < deque_capacity block.old.waiting }
    ensures { scope_seen block.new ≡ record (scope_seen block.old) { falling = (scope_seen block.old).falling ++ item_seen item ∷ [] } }
{
    match block.waiting.push_back(item) {
        Ok(()) => {}
        Err(_) => unreachable!(),
    }
}

// Puts a handle in the place of the item on top, which falls.
fn replace_top(block: &mut Block, number: u64)
    requires some { 0 < length block.old.temps.items }
    requires room { deque_len block.old.waiting < deque_capacity block.old.waiting }
    ensures { scope_seen block.new ≡ record (scope_seen block.old) {
      temps = model.value (model.object number) ∷ rest_of (scope_seen block.old).temps;
      falling = (scope_seen block.old).falling ++ top_of (scope_seen block.old).temps ∷ [];
    } }
{
    let top = swap_handle(block, number);
    fall_last(block, top);
}

/// Puts the handle of a clone in the place of the handle on top of a block, which falls. Where memory is wanting
/// nothing changes but for the order of free numbers.
pub fn clone_top(cells: &mut Cells, block: usize) -> Result<u64, NoMemory>
    requires whole { IsWhole cells.old }
    requires block { ContainsKey cells.old.blocks block }
    requires top { HasHandleOnTop (memory_seen cells.old) block }
    ensures cloned { IfOk result (λ n. IsCloneOnTop cells.old block n cells.new) }
    ensures no_memory { OnErr result (IsBack cells.old cells.new) }
    ensures made { cells.old.ledger.made ≤ cells.new.ledger.made }
{
    let number = top_handle(cells, block);
    match reserve_fall(&mut cells.blocks[block]) {
        Ok(()) => {}
        Err(_) => return Err(NoMemory),
    }
    match make_clone(cells, number) {
        Ok(clone) => {
            replace_top(&mut cells.blocks[block], clone);
            Ok(clone)
        }
        Err(_) => Err(NoMemory),
    }
}
