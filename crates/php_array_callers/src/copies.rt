// A copy with other values.
ghost use Rattle.std.specs.Prelude.{◌≡◌, IfOk};
ghost use Rattle.php_entries.specs.Changes.{map_listing};

use php_array::Entries;
use php_base::{Ledger, NoMemory};
use std::alloc::Global;

/// An array with the same keys and serials, and with 0 for each value.
pub fn zeroed(
    alloc: Global,
    entries: &Entries<u32>,
    ledger: &mut Ledger,
) -> Result<Entries<u32>, NoMemory>
    ensures { IfOk result (λ copy. copy ≡ map_listing (λ _. 0) entries.now) }
{
    let zeros = vec![in alloc; 0; entries.len()]?;
    entries.with_values(zeros, ledger)
}
