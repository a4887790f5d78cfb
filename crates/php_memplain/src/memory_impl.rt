// The eager memory as a memory: each call is the method of its name, which has the clauses of the trait.
ghost use Rattle.std.specs.Prelude.{false};
ghost use Rattle.php_memplain.specs.Means.{Means};

use crate::memory::MemPlain;
use php_base::NoMemory;
use php_memdef::{
    Block, Fallen, Memory, Met, Name, NoObject, Obj, Peek, Place, PropName, Read, Wrote,
};
use php_value::{Key, Scalar};

impl Memory for MemPlain {
    ghost means = { Means };

    ghost made_of = { λ s. s.cells.ledger.made };

    ghost frugal = { false };

    ghost meant_is_sound = { λ s m means. means.sound };

    fn enter(&mut self, temps: usize) -> Result<Block, NoMemory> {
        MemPlain::enter(self, temps)
    }

    fn leave(&mut self, block: Block) {
        MemPlain::leave(self, block);
    }

    fn push(&mut self, block: Block, value: Scalar) {
        MemPlain::push(self, block, value);
    }

    fn push_array(&mut self, block: Block) -> Result<(), NoMemory> {
        MemPlain::push_array(self, block)
    }

    fn push_object(&mut self, block: Block, obj: Obj) {
        MemPlain::push_object(self, block, obj);
    }

    fn copy(&mut self, block: Block, from: &Place) -> Result<Read, NoMemory> {
        MemPlain::copy(self, block, from)
    }

    fn assign(&mut self, block: Block, to: &Place) -> Result<Wrote, NoMemory> {
        MemPlain::assign(self, block, to)
    }

    fn link(&mut self, block: Block, from: &Place) -> Result<Wrote, NoMemory> {
        MemPlain::link(self, block, from)
    }

    fn bind(&mut self, block: Block, to: &Place) -> Result<Wrote, NoMemory> {
        MemPlain::bind(self, block, to)
    }

    fn settle(&mut self, block: Block) -> Result<(), NoMemory> {
        MemPlain::settle(self, block)
    }

    fn pass(&mut self, from: Block, to: Block) {
        MemPlain::pass(self, from, to);
    }

    fn turn(&mut self, block: Block, count: usize) {
        MemPlain::turn(self, block, count);
    }

    fn reserve(&mut self, block: Block, more: usize) -> Result<(), NoMemory> {
        MemPlain::reserve(self, block, more)
    }

    fn append(&mut self, block: Block, to: &Place) -> Result<(), NoMemory> {
        MemPlain::append(self, block, to)
    }

    fn unset(&mut self, block: Block, at: &Place) -> Result<(), NoMemory> {
        MemPlain::unset(self, block, at)
    }

    fn unset_last(&mut self, block: Block, at: &Place) -> Result<(), NoMemory> {
        MemPlain::unset_last(self, block, at)
    }

    fn forget(&mut self, block: Block, name: Name) {
        MemPlain::forget(self, block, name);
    }

    fn shed(&mut self, block: Block) -> bool {
        MemPlain::shed(self, block)
    }

    fn drop_top(&mut self, block: Block) {
        MemPlain::drop_top(self, block);
    }

    fn fall(&mut self, block: Block) -> Fallen {
        MemPlain::fall(self, block)
    }

    fn object(&mut self, block: Block, class: u32, finishing: bool) -> Result<Obj, NoObject> {
        MemPlain::object(self, block, class, finishing)
    }

    fn clone_object(&mut self, block: Block) -> Result<Obj, NoObject> {
        MemPlain::clone_object(self, block)
    }

    fn finish(&mut self, obj: Obj) {
        MemPlain::finish(self, obj);
    }

    fn spare(&mut self, obj: Obj) {
        MemPlain::spare(self, obj);
    }

    fn attach(&mut self, obj: Obj, frame: Option<Block>) {
        MemPlain::attach(self, obj, frame);
    }

    fn peek(&self, at: &Place) -> Peek<'_> {
        MemPlain::peek(self, at)
    }

    fn entry_after(&self, at: &Place, serial: u64) -> Option<(u64, &Key)> {
        MemPlain::entry_after(self, at, serial)
    }

    fn entry_after_near(&self, at: &Place, serial: u64, near: &mut usize) -> Option<(u64, &Key)> {
        MemPlain::entry_after_near(self, at, serial, near)
    }

    fn meets(&self, at: &Place) -> Met<'_> {
        MemPlain::meets(self, at)
    }

    fn is_link(&self, block: Block, depth: usize) -> bool {
        MemPlain::is_link(self, block, depth)
    }

    fn aliased(&self, at: &Place) -> bool {
        MemPlain::aliased(self, at)
    }

    fn temps(&self, block: Block) -> usize {
        MemPlain::temps(self, block)
    }

    fn class_of(&self, obj: Obj) -> u32 {
        MemPlain::class_of(self, obj)
    }

    fn prop_at(&self, obj: Obj, place: usize) -> Option<&PropName> {
        MemPlain::prop_at(self, obj, place)
    }

    fn eldest(&self) -> Option<Obj> {
        MemPlain::eldest(self)
    }

    fn slots(&self) -> u64 {
        MemPlain::slots(self)
    }

    fn made(&self) -> u64 {
        MemPlain::made(self)
    }
}
