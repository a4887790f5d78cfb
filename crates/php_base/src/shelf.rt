ghost use Rattle.std.specs.Prelude.{◌≡◌, ◌≢◌, ℕ, ◌≤◌, List, Option, Some, IfOk, IsErr, take, vec_len};
ghost use Rattle.php_base.specs.Counts.{Rose, counted_up};
ghost use Rattle.php_base.specs.Files.{File, file_of, TellsNone};

use std::alloc::Global;

/// Why a file was not given.
#[derive(Clone, Copy, Debug, PartialEq, Eq)]
pub enum ShelfFail {
    /// The shelf tells its files, and none has the name.
    Missing,
    /// The shelf failed, and its count of faults rose.
    Failed,
    /// Memory for the bytes could not be had.
    NoMemory,
}

/// Where scripts come from. A shelf may tell its files, or tell nothing of them: the files of the
/// host are not told.
pub trait Shelf {
    /// The files, where the shelf tells them.
    ghost files: { Self → Option (List File) };

    /// How often the shelf failed. The count never falls, and may stand still at its greatest value.
    ghost faults: { Self → ℕ };

    /// How often `fetch` was called, whatever it answered, up to the greatest value of a `u64`.
    ghost fetches: { Self → ℕ };

    /// Gives the first `limit` bytes of a file, and all of it where it is no longer than that.
    fn fetch(&mut self, alloc: Global, name: &str, limit: usize) -> Result<Vec<u8>, ShelfFail>
        ensures files_stay { files self.new ≡ files self.old }
        ensures counted { fetches self.new ≡ counted_up (fetches self.old) }
        ensures faults_stay { faults self.old ≤ faults self.new }

        ensures within { IfOk result (λ bytes. vec_len bytes ≤ limit) }
        ensures told { (files_view : List File) (bytes : List ℕ) →
            files self.old ≡ Some files_view → file_of files_view name.now ≡ Some bytes →
            IfOk result (λ given. given.items ≡ take limit bytes) }

        ensures not_there { TellsNone (files self.old) name.now → IsErr result }
        ensures missing { result ≡ Err ShelfFail.Missing → TellsNone (files self.old) name.now }
        ensures failed { result ≡ Err ShelfFail.Failed → Rose (faults self.old) (faults self.new) }
        ensures other { result ≢ Err ShelfFail.Failed → faults self.new ≡ faults self.old };
}
