// A memory as a whole, and the release of what has fallen in it.
ghost use Rattle.std.specs.Prelude.{◌≡◌, [], ◌∷◌};
ghost use Rattle.slab.specs.Slab.{ContainsKey};
ghost use Rattle.php_memdef.specs.Contents.{value, object, object_of};
ghost use Rattle.php_memdef.specs.Temporaries.{with_falling};
ghost use Rattle.php_memdef.specs.Releases as releases;
ghost use Rattle.php_memplain_cells.specs.Falls.{FirstIs};
ghost use Rattle.php_memplain_cells.specs.Memory.{memory_seen, falling_in, HasNoHandle, IsCounted, IsCountedWith, turn_of};

use crate::block::Block;
use crate::falling::First;
use crate::load::Load;
use crate::objects::{Dropped, Object, drop_handle};
use crate::stores::{Store, drop_link};
use php_base::Ledger;
use php_memdef::{Block as Number, Fallen, Obj};
use slab::Slab;
use std::alloc::Global;

/// Stores, objects by their numbers from 1 on, blocks and statics, and the count of the entries made.
#[derive(Drop)]
pub struct Cells {
    pub alloc: Global,
    pub stores: Slab<Store>,
    pub objects: Vec<Option<Box<Object>>>,
    pub blocks: Slab<Block>,
    pub statics: Vec<Option<usize>>,
    pub ledger: Ledger,
}

impl Cells {
    /// Takes what falls next in a block out of its list.
    fn take_first(&mut self, block: usize) -> First
        requires { ContainsKey self.old.blocks block }
        ensures memory { memory_seen self.new ≡ with_falling (memory_seen self.old) block (falling_in self.new block) }
        ensures first { FirstIs result (falling_in self.old block) (falling_in self.new block) }
        ensures stores { self.new.stores ≡ self.old.stores }
        ensures objects { self.new.objects ≡ self.old.objects }
        ensures block { ContainsKey self.new.blocks block }
        ensures handle { HasNoHandle self.new block }
        ensures ledger { self.new.ledger ≡ self.old.ledger }
    {
        self.blocks[block].next_fallen()
    }

    /// Drops a link that fell.
    fn release_link(&mut self, block: usize, store: usize)
        requires block { ContainsKey self.old.blocks block }
        requires handle { HasNoHandle self.old block }
        requires counted { IsCountedWith self.old (store ∷ []) [] }
        ensures memory { memory_seen self.new ≡ releases.link_dropped (releases.is_held (memory_seen self.old) store) (memory_seen self.old) block (falling_in self.old block) store }
        ensures counted { IsCounted self.new }
        ensures block { ContainsKey self.new.blocks block }
        ensures ledger { self.new.ledger ≡ self.old.ledger }
    {
        if let Some(content) = drop_link(&mut self.stores, store) {
            self.blocks[block].fall_first(content);
        }
    }

    /// Drops a handle that fell.
    fn release_handle(&mut self, block: usize, number: u64) -> Option<Fallen>
        requires block { ContainsKey self.old.blocks block }
        requires handle { HasNoHandle self.old block }
        requires counted { IsCountedWith self.old [] (number ∷ []) }
        ensures turn { releases.handle_dropped (releases.is_object_held (memory_seen self.old) number) (object_of (memory_seen self.old) number)
            (with_falling (memory_seen self.old) block (value (object number) ∷ falling_in self.old block)) block (falling_in self.old block) number
            ≡ turn_of result (memory_seen self.new) }
        ensures counted { IsCounted self.new }
        ensures block { ContainsKey self.new.blocks block }
        ensures ledger { self.new.ledger ≡ self.old.ledger }
    {
        match drop_handle(&mut self.objects, number) {
            Dropped::Held => None,
            Dropped::Due => {
                self.blocks[block].handle = Some(number);
                Some(Fallen::Destroy(Obj(number)))
            }
            Dropped::Framed(frame) => {
                self.blocks[block].handle = Some(number);
                Some(Fallen::Frame(Number(frame)))
            }
            Dropped::Gone(properties, link) => {
                self.blocks[block]
                    .loads
                    .push(Load::Properties(properties, 0), link);
                None
            }
        }
    }

    /// One turn of a release: it goes on, or stops with an answer.
    fn release_one(&mut self, block: usize) -> Option<Fallen>
        requires block { ContainsKey self.old.blocks block }
        requires counted { IsCounted self.old }
        ensures turn { releases.turn (memory_seen self.old) block ≡ turn_of result (memory_seen self.new) }
        ensures counted { IsCounted self.new }
        ensures block { ContainsKey self.new.blocks block }
        ensures ledger { self.new.ledger ≡ self.old.ledger }
    {
        match self.take_first(block) {
            First::Nothing => Some(Fallen::Nothing),
            First::Passed => None,
            First::Link(store) => {
                self.release_link(block, store);
                None
            }
            First::Handle(number) => self.release_handle(block, number),
        }
    }

    /// Releases what has fallen in a block, first item first, until nothing is left, a destructor is due
    /// or a frame is to be released.
    pub fn fall(&mut self, block: usize) -> Fallen
        requires block { ContainsKey self.old.blocks block }
        requires counted { IsCounted self.old }
        ensures falls { releases.fall (memory_seen self.old) block ≡ (memory_seen self.new, result) }
        ensures counted { IsCounted self.new }
        ensures block { ContainsKey self.new.blocks block }
        ensures ledger { self.new.ledger ≡ self.old.ledger }
    {
        loop {
            if let Some(answer) = self.release_one(block) {
                return answer;
            }
        }
    }
}
