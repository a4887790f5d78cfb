// Keys, and the next key that an array keeps.
ghost use Rattle.std.specs.Prelude.{◌≡◌, ◌^◌, ◌<◌, ◌≤◌, IfOk, pos};
ghost use Rattle.php_value.specs.declared.key.Key.TheVariants.{Int};
ghost use Rattle.php_entries.specs.Keys.{next_key_above, next_key_without};
ghost use Rattle.php_entries.specs.Listing.{KEY_LIMIT};
ghost use Rattle.php_entries.specs.Soundness.{IsKeyBelow};

use php_base::NoMemory;
use php_value::Key;

/// A further key that is equal. It shares the bytes of a text.
pub fn share_key(key: &Key) -> Result<Key, NoMemory>
    ensures { IfOk result (λ k. k ≡ key.now) }
{
    match key {
        Key::Int(k) => Ok(Key::Int(*k)),
        Key::Str(text) => Ok(Key::Str(text.share()?)),
    }
}

/// The next key once an entry with this key is made.
pub fn key_above(key: &Key, next: u64) -> u64
    requires { next ≤ 2 ^ 63 }
    ensures value { result ≡ next_key_above key.now next }
    ensures within { result ≤ 2 ^ 63 }
    ensures key_fits { IsKeyBelow KEY_LIMIT key.now }
{
    match key {
        Key::Int(k) if *k >= 0 => next.max(*k as u64 + 1),
        Key::Int(_) => next,
        Key::Str(_) => next,
    }
}

/// The next key once the entry with this key is popped.
pub fn key_without(key: &Key, next: u64) -> u64
    ensures value { result ≡ next_key_without key.now next }
    ensures within { result ≤ next }
{
    match key {
        Key::Int(k) if *k >= 0 && *k as u64 + 1 == next => *k as u64,
        _ => next,
    }
}

/// The next key, as an int.
pub fn next_int(next: u64) -> i64
    requires { next < 2 ^ 63 }
    ensures { result ≡ pos next }
{
    next as i64
}

/// The next key, as a key.
pub fn int_key(next: u64) -> Key
    requires { next < 2 ^ 63 }
    ensures { result ≡ Int (pos next) }
{
    Key::Int(next as i64)
}
