// What a memory that copies at once shows.
ghost use Rattle.std.specs.Prelude.{◌≡◌, ◌≤◌, option_map, option_copied};
ghost use Rattle.php_memdef.specs.Holders.{vslots};
ghost use Rattle.php_memdef.specs.Objects as objects;
ghost use Rattle.php_memdef.specs.Meanings.{SomeMeant, EachMeant};
ghost use Rattle.php_memdef.specs.Conditions.{IsBlock, IsObject, IsPlace};
ghost use Rattle.php_memdef.specs.Views.{Shows, found, later_entry, is_aliased, is_link, steps_met, end_met};
ghost use Rattle.php_memplain.specs.Means.{Means};

use crate::memory::MemPlain;
use php_memdef::{Block, Met, Obj, Peek, Place, PropName};
use php_memplain_places as views;
use php_value::Key;

impl MemPlain {
    /// What the place holds.
    pub fn peek(&self, at: &Place) -> Peek<'_>
        requires { SomeMeant (Means self.now) (λ m. IsPlace m at.now) }
        ensures { EachMeant (Means self.now) (λ m. Shows result (found m at.now)) }
    {
        views::peek(&self.cells, at)
    }

    /// Birth serial and key of the first entry with a greater serial in the array at the place, where
    /// the place holds an array with such an entry. Serials begin at 1.
    pub fn entry_after(&self, at: &Place, serial: u64) -> Option<(u64, &Key)>
        requires { SomeMeant (Means self.now) (λ m. IsPlace m at.now) }
        ensures { EachMeant (Means self.now) (λ m. option_map (λ e. (e.0, e.1.now)) result ≡ later_entry m at.now serial) }
    {
        views::entry_after(&self.cells, at, serial)
    }

    /// As `entry_after`, for a walk that keeps a hint of where in the array it is. The call sets the
    /// hint; any number is right, 0 at first, and the answer doesn't depend on it.
    pub fn entry_after_near(&self, at: &Place, serial: u64, near: &mut usize) -> Option<(u64, &Key)>
        requires { SomeMeant (Means self.now) (λ m. IsPlace m at.now) }
        ensures { EachMeant (Means self.now) (λ m. option_map (λ e. (e.0, e.1.now)) result ≡ later_entry m at.now serial) }
    {
        views::entry_after_near(&self.cells, at, serial, near)
    }

    /// How many steps of the path lead somewhere, and what stands where they end.
    pub fn meets(&self, at: &Place) -> Met<'_>
        requires { SomeMeant (Means self.now) (λ m. IsPlace m at.now) }
        ensures steps { EachMeant (Means self.now) (λ m. result.steps ≡ steps_met m at.now) }
        ensures end { EachMeant (Means self.now) (λ m. Shows result.end (end_met m at.now)) }
    {
        views::meets(&self.cells, at)
    }

    /// Whether the temporary of this depth, the top at 0, is there and is a link.
    pub fn is_link(&self, block: Block, depth: usize) -> bool
        requires { SomeMeant (Means self.now) (λ m. IsBlock m block.0) }
        ensures { EachMeant (Means self.now) (λ m. result ≡ is_link m block.0 depth) }
    {
        views::is_link(&self.cells, block.0, depth)
    }

    /// Whether the place has a store that something else points to as well.
    pub fn aliased(&self, at: &Place) -> bool
        requires { SomeMeant (Means self.now) (λ m. IsPlace m at.now) }
        ensures { EachMeant (Means self.now) (λ m. result ≡ is_aliased m at.now) }
    {
        views::is_aliased(&self.cells, at)
    }

    /// The number of the object's class.
    pub fn class_of(&self, obj: Obj) -> u32
        requires { SomeMeant (Means self.now) (λ m. IsObject m obj.0) }
        ensures { EachMeant (Means self.now) (λ m. result ≡ objects.class_of m obj.0) }
    {
        views::class_of(&self.cells, obj.0)
    }

    /// The name of the object's property of that place in the order of making, the first one at 0,
    /// where there are so many.
    pub fn prop_at(&self, obj: Obj, place: usize) -> Option<&PropName>
        requires { SomeMeant (Means self.now) (λ m. IsObject m obj.0) }
        ensures { EachMeant (Means self.now) (λ m. option_copied result ≡ objects.property_name m obj.0 place) }
    {
        views::prop_at(&self.cells, obj.0, place)
    }

    /// The oldest object whose destructor is to be run and wasn't.
    pub fn eldest(&self) -> Option<Obj>
        ensures { EachMeant (Means self.now) (λ m. option_map (λ h. h.0) result ≡ objects.eldest m) }
    {
        match views::eldest(&self.cells) {
            Some(number) => Some(Obj(number)),
            None => None,
        }
    }

    /// The number of entries of arrays and of properties that stand in it, however they are shared.
    /// It is at most the number that the model's memory has.
    pub fn slots(&self) -> u64
        ensures { EachMeant (Means self.now) (λ m. result ≤ vslots m) }
    {
        views::slots(&self.cells)
    }
}
