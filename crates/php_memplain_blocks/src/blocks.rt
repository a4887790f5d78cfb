// Changes of one block.
ghost use Rattle.std.specs.Prelude.{◌≡◌, ◌+◌, ◌<◌, ◌++◌, [], ◌∷◌, length, IfOk, IfSome, IfNone, OnOk, OnErr};
ghost use Rattle.php_memdef.specs.Contents as model;
ghost use Rattle.php_memdef.specs.Temporaries.{rest_of, top_of, fallen};
ghost use Rattle.php_memplain_cells.specs.Seen.{item_seen, scope_seen, block_falling};
ghost use Rattle.php_memplain_blocks.specs.Rooms.{HasWaitingRoom};
ghost use Rattle.php_memplain_blocks.specs.Variables.{shed_scope, has_variable};

use php_base::NoMemory;
use php_chain::Chain;
use php_memplain_cells::{Block, Content, Item};
use std::alloc::Global;
use std::collections::VecDeque;

/// Puts an item on top, for which there is room.
pub fn push_item(block: &mut Block, item: Item)
    requires { length block.old.temps.items < block.old.room }
    ensures seen { scope_seen block.new ≡ record (scope_seen block.old) { temps = item_seen item ∷ (scope_seen block.old).temps } }
{
    match block.temps.push(item) {
        Ok(()) => {}
        Err(_) => unreachable!(),
    }
}

/// Takes the top item.
pub fn pop_item(block: &mut Block) -> Option<Item>
    ensures seen { scope_seen block.new ≡ record (scope_seen block.old) { temps = rest_of (scope_seen block.old).temps } }
    ensures top { IfSome result (λ i. item_seen i ≡ top_of (scope_seen block.old).temps) }
    ensures none { IfNone result ((scope_seen block.old).temps ≡ []) }
    ensures waiting { block.new.waiting ≡ block.old.waiting }
    ensures room { block.new.room ≡ block.old.room }
{
    block.temps.pop()
}

/// Puts an item in the place of the top item, which is handed out.
pub fn swap_top(block: &mut Block, item: Item) -> Item
    requires { 0 < length block.old.temps.items }
    ensures seen { scope_seen block.new ≡ record (scope_seen block.old) { temps = item_seen item ∷ rest_of (scope_seen block.old).temps } }
    ensures top { item_seen result ≡ top_of (scope_seen block.old).temps }
{
    let Some(top) = block.temps.pop() else {
        unreachable!();
    };
    match block.temps.push(item) {
        Ok(()) => {}
        Err(_) => unreachable!(),
    }
    top
}

/// Lets an item fall behind all others, for which there is room.
pub fn fall_last(block: &mut Block, item: Item)
    requires { HasWaitingRoom block.old }
    ensures seen { scope_seen block.new ≡ record (scope_seen block.old) { falling = (scope_seen block.old).falling ++ fallen (item_seen item) } }
{
    let item = match item {
        Item::Value(Content::Null | Content::Bool(_) | Content::Int(_) | Content::Str(_)) => return,
        item => item,
    };
    match block.waiting.push_back(item) {
        Ok(()) => {}
        Err(_) => unreachable!(),
    }
}

/// A block with nothing in it, and with room.
pub fn new_block(alloc: Global, temps: usize) -> Result<Block, NoMemory>
    ensures { IfOk result (λ f. scope_seen f ≡ record model.no_scope { room = temps }) }
{
    let items = Vec::with_capacity(alloc, temps)?;
    let waiting = VecDeque::with_capacity(alloc, temps)?;
    Ok(Block {
        variables: Vec::new(alloc),
        temps: items,
        room: temps,
        handle: None,
        loads: Chain::new(),
        waiting,
    })
}

/// Makes room for so many more items on top, and for as many that fall.
pub fn reserve_room(block: &mut Block, more: usize) -> Result<(), NoMemory>
    ensures ok { OnOk result (scope_seen block.new ≡ record (scope_seen block.old) { room = (scope_seen block.old).room + more }) }
    ensures no_memory { OnErr result (scope_seen block.new ≡ scope_seen block.old) }
{
    let Some(room) = block.room.checked_add(more) else {
        return Err(NoMemory);
    };
    let items = block.temps.len();
    if items < room {
        block.temps.reserve(room - items)?;
    }
    let waiting = block.waiting.len();
    if waiting < room {
        block.waiting.reserve(room - waiting)?;
    }
    block.room = room;
    Ok(())
}

/// Removes the oldest variable where there is one, and lets its store fall, for which there is room.
pub fn shed_variable(block: &mut Block) -> bool
    requires { HasWaitingRoom block.old }
    ensures seen { scope_seen block.new ≡ shed_scope (scope_seen block.old).variables (scope_seen block.old) }
    ensures answer { result ≡ has_variable (scope_seen block.old).variables }
{
    if block.variables.is_empty() {
        return false;
    }
    let variable = block.variables.remove(0);
    fall_last(block, Item::Link(variable.store));
    true
}
