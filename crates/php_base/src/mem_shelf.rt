ghost use Rattle.std.specs.Prelude.{◌≡◌, ◌↔◌, [], ◌∷◌, ◌++◌, Some, None, OnOk, OnErr, IfOk, IsErrOf, IfErr, IfSome, IfNone, IsTrue, false, ◌<◌, ◌≤◌, length, take, vec_len, if◌then◌else◌};
ghost use Rattle.std.specs.Option.{option_map};
ghost use Rattle.php_base.specs.Counts.{counted_up};
ghost use Rattle.php_base.specs.Files.{file_of, IsFirstOf, PutsFile};
ghost use Rattle.php_base.specs.MemFiles.{files_view};
ghost use Rattle.php_base.specs.MemShelf.{fetch_fails};

use crate::memory::NoMemory;
use crate::shelf::{Shelf, ShelfFail};
use std::alloc::Global;
use std::marker::Model;

/// A file that a shelf in memory keeps.
#[derive(Drop)]
struct MemFile {
    name: String,
    bytes: Vec<u8>,
}

/// A shelf in memory, for tests: it keeps its files, and fails at chosen calls.
#[derive(Drop)]
pub struct MemShelf {
    files: Vec<MemFile>,
    failing: Vec<u64>,
    fetches: u64,
    faults: u64,
}

impl Model for MemShelf {
    ghost use Rattle.php_base.specs.MemShelf.{ShelfState};

    ghost Value = { ShelfState };

    ghost use Rattle.php_base.specs.MemFiles.{files_view};

    ghost view = { λ shelf. record {
      files = files_view shelf.files.items;
      failing = shelf.failing.items;
      fetches = shelf.fetches;
      faults = shelf.faults;
    } };
}

impl MemShelf {
    /// An empty shelf. It takes no memory yet.
    pub fn new(alloc: Global) -> MemShelf
        ensures { result ≡ record { files = []; failing = []; fetches = 0; faults = 0 } }
    {
        MemShelf {
            files: Vec::new(alloc),
            failing: Vec::new(alloc),
            fetches: 0,
            faults: 0,
        }
    }

    /// Lets this call of `fetch` fail, counted from 1.
    pub fn fail_at(&mut self, call: u64) -> Result<(), NoMemory>
        ensures ok { OnOk result (self.new ≡ record self.old { failing = self.old.failing ++ call ∷ [] }) }
        ensures err { OnErr result (self.new ≡ self.old) }
    {
        self.failing.push(call)?;
        Ok(())
    }

    /// Puts a file on the shelf, in place of one of that name. After `NoMemory` the shelf is as it
    /// was.
    pub fn put(&mut self, name: &str, bytes: &[u8]) -> Result<(), NoMemory>
        ensures ok { OnOk result (PutsFile self.old.files self.new.files name.now bytes.now) }
        ensures rest { self.new ≡ record self.old { files = self.new.files } }
        ensures err { OnErr result (self.new ≡ self.old) }
    {
        let alloc = *self.files.allocator();
        let bytes = Vec::from_slice(alloc, bytes)?;
        match place_of(self.files.as_slice(), name) {
            Some(place) => self.files[place].bytes = bytes,
            None => {
                let name = String::from_str(alloc, name)?;
                self.files.push(MemFile { name, bytes })?;
            }
        }
        Ok(())
    }
}

impl Shelf for MemShelf {
    ghost files = { λ shelf. Some shelf.files };

    ghost faults = { λ shelf. shelf.faults };

    ghost fetches = { λ shelf. shelf.fetches };

    fn fetch(&mut self, alloc: Global, name: &str, limit: usize) -> Result<Vec<u8>, ShelfFail>
        ensures failed { IsErrOf result ShelfFail.Failed ↔ IsTrue (fetch_fails self.old) }
        ensures missing { fetch_fails self.old ≡ false →
            (IsErrOf result ShelfFail.Missing ↔ (file_of self.old.files name.now ≡ None)) }
        ensures given { IfOk result (λ bytes. option_map (take limit) (file_of self.old.files name.now) ≡ Some bytes.items) }
        ensures state { self.new ≡ record self.old {
          fetches = counted_up self.old.fetches;
          faults = (if fetch_fails self.old then counted_up self.old.faults else self.old.faults);
        } }
        ensures within { IfOk result (λ bytes. vec_len bytes ≤ limit) }
        ensures faults_stay { self.old.faults ≤ self.new.faults }
    {
        self.fetches = self.fetches.saturating_add(1);
        if self.failing.contains(&self.fetches) {
            self.faults = self.faults.saturating_add(1);
            return Err(ShelfFail::Failed);
        }
        let Some(place) = place_of(self.files.as_slice(), name) else {
            return Err(ShelfFail::Missing);
        };
        let bytes = self.files[place].bytes.as_slice();
        first_bytes(alloc, bytes, limit)
    }
}

/// The place of the first file of this name.
fn place_of(files: &[MemFile], name: &str) -> Option<usize>
    ensures within { IfSome result (λ place. place < length files.now) }
    ensures found { IfSome result (λ place. IsFirstOf (files_view files.now) name.now place) }
    ensures none { IfNone result (file_of (files_view files.now) name.now ≡ None) }
{
    for (place, file) in files.iter().enumerate() {
        if name == file.name.as_str() {
            return Some(place);
        }
    }
    None
}

/// A copy of the first `limit` bytes.
fn first_bytes(alloc: Global, bytes: &[u8], limit: usize) -> Result<Vec<u8>, ShelfFail>
    ensures ok { IfOk result (λ given. given.items ≡ take limit bytes.now) }
    ensures within { IfOk result (λ given. vec_len given ≤ limit) }
    ensures err { IfErr result (λ fail. fail ≡ ShelfFail.NoMemory) }
{
    let end = limit.min(bytes.len());
    Vec::from_slice(alloc, &bytes[..end]).map_err(|_| ShelfFail::NoMemory)
}
