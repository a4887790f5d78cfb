// A count by key.
ghost use Rattle.std.specs.Prelude.{◌≡◌, ◌+◌, ◌-◌, ◌^◌, min, false, Some, unwrap_or, IfOk, OnOk, OnErr};
ghost use Rattle.php_value.specs.declared.key.Key.{Key};
ghost use Rattle.php_entries.specs.Keys.{key_eq};
ghost use Rattle.php_entries.specs.Listing.{value_at};

use php_array::{Entries, NoSet};
use php_base::Ledger;
use php_value::Key;

/// Counts a key once more, and answers how often it was counted.
pub fn count_key(tally: &mut Entries<u64>, key: Key, ledger: &mut Ledger) -> Result<u64, NoSet<u64>>
    ensures times { IfOk result (λ times.
        times ≡ min (unwrap_or (value_at tally.old key) 0 + 1) (2 ^ 64 - 1)) }
    ensures counted { IfOk result (λ times. value_at tally.new key ≡ Some times) }
    ensures others { OnOk result ((q : Key) → key_eq key q ≡ false →
        value_at tally.new q ≡ value_at tally.old q) }
    ensures err { OnErr result (tally.new ≡ tally.old) }
{
    if let Some(times) = tally.get_mut(&key) {
        *times = times.saturating_add(1);
        return Ok(*times);
    }
    tally.set(key, 1, ledger)?;
    Ok(1)
}
