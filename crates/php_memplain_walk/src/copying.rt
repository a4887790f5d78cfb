// A copy on its way, without recursion.
ghost use Rattle.std.specs.Prelude.{◌≡◌, ◌≤◌, ◌<◌, ◌+◌, ◌++◌, ℕ, List, [], ◌∷◌, Option, Some, Box, OnOk};
ghost use Rattle.std.specs.declared.alloc.Global.{Global};
ghost use Rattle.php_memplain_cells.specs.declared.objects.Object.{Object};
ghost use Rattle.php_memplain_cells.specs.declared.cells.Cells.{Cells};
ghost use Rattle.php_memplain_cells.specs.Seen.{stores_seen};
ghost use Rattle.php_memplain_copy.specs.Walking.{Start, left_in};
ghost use Rattle.php_memplain_walk.specs.Way.{SomeOnWay, IsOnWay, StepIs, CanBegin, SomeBeginning, CopyIs};

use php_array::Entries;
use php_base::{Ledger, NoMemory};
use php_memplain_cells::{Content, Object, Store};
use php_memplain_copy::{
    Frame, Log, copy_element, finished, has_rising_serials, next_element, put_new,
};
use slab::Slab;
use std::alloc::Global;
use std::mem;

/// The array that is being copied, and those around it that wait, the outermost first.
#[derive(Drop)]
pub struct Copying {
    pub frame: Frame,
    pub waiting: Vec<Frame>,
}

impl Copying {
    // Goes inside an element that holds an array.
    fn go_inside(&mut self, alloc: Global, store: usize) -> Result<(), NoMemory>
        requires { 0 < self.old.frame.levels }
        ensures source { OnOk result (self.new.frame.source ≡ Some store) }
        ensures levels { OnOk result (self.old.frame.levels ≡ self.new.frame.levels + 1) }
        ensures values { OnOk result (self.new.frame.values.items ≡ []) }
        ensures passed { OnOk result (self.new.frame.passed ≡ 0) }
        ensures waiting { OnOk result (self.new.waiting.items ≡ self.old.waiting.items ++ self.old.frame ∷ []) }
    {
        let inner = Frame {
            source: Some(store),
            levels: self.frame.levels - 1,
            values: Vec::new(alloc),
            passed: 0,
            near: 0,
        };
        let outer = mem::replace(&mut self.frame, inner);
        self.waiting.push(outer)?;
        Ok(())
    }

    // Goes back from an array whose elements are all copied to the one around it.
    fn go_back(
        &mut self,
        alloc: Global,
        stores: &mut Slab<Store>,
        log: &mut Log,
        root: &Entries<usize>,
        ledger: &mut Ledger,
    ) -> Result<Option<Content>, NoMemory>
        requires way { (objects : List (Option (Box Object Global))) × SomeOnWay root.now self.old stores.old objects log.old }
        requires end { left_in (stores_seen stores.old) root.now self.old.frame ≡ [] }
        ensures step { (objects : List (Option (Box Object Global))) (before : Cells) (start : Start) (others : ℕ → ℕ)
            → IsOnWay before root.now start others self.old stores.old objects log.old
            → StepIs before root.now start others result self.new stores.new objects log.new }
        ensures made { ledger.old.made ≤ ledger.new.made }
    {
        let values = mem::replace(&mut self.frame.values, Vec::new(alloc));
        let Ok(content) = finished(alloc, stores, root, self.frame.source, values, ledger) else {
            return Err(NoMemory);
        };
        let Some(outer) = self.waiting.pop() else {
            return Ok(Some(content));
        };
        self.frame = outer;
        let Ok(copy) = put_new(stores, &mut log.stores, content) else {
            return Err(NoMemory);
        };
        match self.frame.values.push(copy) {
            Ok(()) => Ok(None),
            Err(_) => Err(NoMemory),
        }
    }

    // One element further, or back to the array around the one that is being copied.
    fn step(
        &mut self,
        alloc: Global,
        stores: &mut Slab<Store>,
        objects: &mut Vec<Option<Box<Object>>>,
        log: &mut Log,
        root: &Entries<usize>,
        ledger: &mut Ledger,
    ) -> Result<Option<Content>, NoMemory>
        requires { SomeOnWay root.now self.old stores.old objects.old.items log.old }
        ensures step { (before : Cells) (start : Start) (others : ℕ → ℕ)
            → IsOnWay before root.now start others self.old stores.old objects.old.items log.old
            → StepIs before root.now start others result self.new stores.new objects.new.items log.new }
        ensures made { ledger.old.made ≤ ledger.new.made }
    {
        let Some(store) = next_element(stores, root, &mut self.frame) else {
            return self.go_back(alloc, stores, log, root, ledger);
        };
        match copy_element(stores, objects, log, self.frame.levels, store) {
            Ok(Some(copy)) => match self.frame.values.push(copy) {
                Ok(()) => Ok(None),
                Err(_) => Err(NoMemory),
            },
            Ok(None) => match self.go_inside(alloc, store) {
                Ok(()) => Ok(None),
                Err(_) => Err(NoMemory),
            },
            Err(_) => Err(NoMemory),
        }
    }
}

/// Copies an array, that of a store or else another one, so many levels down. What it takes is entered in the
/// log, and where memory is wanting it is to be given back by that. Each turn but a going back takes an
/// element, so no memory holds what more turns than the bound would make.
pub fn copy_array(
    alloc: Global,
    stores: &mut Slab<Store>,
    objects: &mut Vec<Option<Box<Object>>>,
    log: &mut Log,
    root: &Entries<usize>,
    source: Option<usize>,
    levels: usize,
    ledger: &mut Ledger,
) -> Result<Content, NoMemory>
    requires { SomeBeginning root.now source stores.old objects.old.items log.old }
    ensures copy { (before : Cells) (others : ℕ → ℕ) → CanBegin before others root.now source stores.old objects.old.items log.old
        → CopyIs before root.now (record { source = source; levels = levels; stores = stores_seen stores.old }) others result stores.new objects.new.items log.new }
    ensures made { ledger.old.made ≤ ledger.new.made }
{
    has_rising_serials(stores, root, source);
    let mut copying = Copying {
        frame: Frame {
            source,
            levels,
            values: Vec::new(alloc),
            passed: 0,
            near: 0,
        },
        waiting: Vec::new(alloc),
    };
    for _turn in 0..u64::MAX {
        match copying.step(alloc, stores, objects, log, root, ledger) {
            Ok(None) => {}
            Ok(Some(content)) => return Ok(content),
            Err(_) => return Err(NoMemory),
        }
    }
    Err(NoMemory)
}
