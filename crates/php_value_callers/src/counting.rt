// Keys in an ordered map.
ghost use Rattle.std.specs.Prelude.{◌≡◌, ◌≢◌, ◌+◌, ◌^◌, ◌-◌, Some, OnOk, min, unwrap_or};
ghost use Rattle.indexmap.specs.IndexMap.{get};
ghost use Rattle.php_value.specs.Key.{key_of_scalar};
ghost use Rattle.php_value.specs.declared.key.Key.{Key};

use indexmap::IndexMap;
use php_base::NoMemory;
use php_value::{Key, Scalar, equal_keys_are_one_key, key_of};

/// Counts one more value under its key.
pub fn count_key(counts: &mut IndexMap<Key, u64>, value: Scalar) -> Result<(), NoMemory>
    ensures counted { OnOk result (get ⟦<Key as PartialEq>⟧.eq counts.new (key_of_scalar value)
        ≡ Some (min (unwrap_or (get ⟦<Key as PartialEq>⟧.eq counts.old (key_of_scalar value)) 0 + 1) (2 ^ 64 - 1))) }
    ensures others { OnOk result ((k : Key) → k ≢ key_of_scalar value
        → get ⟦<Key as PartialEq>⟧.eq counts.new k ≡ get ⟦<Key as PartialEq>⟧.eq counts.old k) }
{
    equal_keys_are_one_key();
    let key = key_of(value);
    let count = counts.get(&key).copied().unwrap_or(0);
    counts.insert(key, count.saturating_add(1))?;
    Ok(())
}
