// What one call has.
ghost use Rattle.std.specs.Prelude.{◌≤◌, vec_capacity};
ghost use Rattle.std.specs.VecDeque.{deque_capacity};

use crate::content::Item;
use crate::load::Load;
use php_chain::Chain;
use std::collections::VecDeque;

/// A variable: the number of its name and its store.
#[derive(Drop)]
pub struct Variable {
    pub name: u32,
    pub store: usize,
}

/// The variables of a call in the order of their making, its temporaries, of which the last is the top,
/// and what has fallen: a handle that comes before all else, what is being released, and what waits.
#[derive(Drop)]
pub struct Block {
    pub variables: Vec<Variable>,
    pub temps: Vec<Item>,
    pub room: usize,
    pub handle: Option<u64>,
    pub loads: Chain<Load>,
    pub waiting: VecDeque<Item>,
    ghost temps_room: { room ≤ vec_capacity temps },
    ghost waiting_room: { room ≤ deque_capacity waiting },
}
