// Keys that follow one another, so that a key tells its place.
ghost use Rattle.std.specs.Prelude.{◌≡◌, ◌⊎◌, Some, IfSome};
ghost use Rattle.php_array.specs.Index.{candidate};
ghost use Rattle.php_array.specs.declared.key_index.KeyIndex.TheVariants.{Packed};

use php_value::Key;

/// The place of a key, where the key of the first place is this number.
pub fn packed_place(first: u64, key: &Key) -> Option<usize>
    ensures { result ≡ candidate (Packed first) key.now }
{
    match key {
        Key::Int(k) if *k >= 0 && first <= *k as u64 => Some((*k as u64 - first) as usize),
        _ => None,
    }
}

/// The key of the first place with which this key tells the place behind `len` slots.
pub fn packed_first(first: u64, len: usize, key: &Key) -> Option<u64>
    ensures place { IfSome result (λ f. candidate (Packed f) key.now ≡ Some len) }
    ensures kept { IfSome result (λ f. (len ≡ 0) ⊎ (f ≡ first)) }
{
    let first = match key {
        Key::Int(k) if *k >= 0 && len == 0 => *k as u64,
        _ => first,
    };
    if packed_place(first, key) == Some(len) {
        Some(first)
    } else {
        None
    }
}
