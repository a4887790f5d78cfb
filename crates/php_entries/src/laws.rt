// What holds of the definition alone. The functions do nothing: their contracts are the laws.
ghost use Rattle.std.specs.Prelude.{◌≡◌, ℕ, List, option_map};
ghost use Rattle.php_value.specs.declared.key.Key.{Key};
ghost use Rattle.php_entries.specs.Listing.{Listing, no_entries, entry_at, entry_after, KEY_LIMIT};
ghost use Rattle.php_entries.specs.Changes.{set_value, append_value, remove_key, pop_entry, with_values, map_entry, map_listing, map_growth};
ghost use Rattle.php_entries.specs.Soundness.{IsKeyBelow, IsSound, KeepsSound};

/// Each change leads from a sound array to a sound one, for keys that are 64-bit integers or texts.
pub fn changes_keep_sound<T>()
    ensures none { IsSound (no_entries {T = T}) }
    ensures set { (l : Listing T) (k : Key) (v : T) →
        IsSound l → IsKeyBelow KEY_LIMIT k → KeepsSound (set_value l k v) }
    ensures append { (l : Listing T) (v : T) → IsSound l → KeepsSound (append_value l v) }
    ensures remove { (l : Listing T) (k : Key) → IsSound l → IsSound (remove_key l k) }
    ensures pop { (l : Listing T) → IsSound l → IsSound (pop_entry l) }
    ensures values { (l : Listing T) (vs : List T) → IsSound l → IsSound (with_values l vs) }
{}

/// No look-up and no change looks at a value: on mapped values it is the same, mapped.
pub fn changes_map_values<T, U>()
    ensures at { (f : T → U) (l : Listing T) (k : Key) →
        entry_at (map_listing f l) k ≡ option_map (map_entry f) (entry_at l k) }
    ensures after { (f : T → U) (l : Listing T) (serial : ℕ) →
        entry_after (map_listing f l) serial ≡ option_map (map_entry f) (entry_after l serial) }
    ensures set { (f : T → U) (l : Listing T) (k : Key) (v : T) →
        set_value (map_listing f l) k (f v) ≡ map_growth f (set_value l k v) }
    ensures append { (f : T → U) (l : Listing T) (v : T) →
        append_value (map_listing f l) (f v) ≡ map_growth f (append_value l v) }
    ensures remove { (f : T → U) (l : Listing T) (k : Key) →
        remove_key (map_listing f l) k ≡ map_listing f (remove_key l k) }
    ensures pop { (f : T → U) (l : Listing T) →
        pop_entry (map_listing f l) ≡ map_listing f (pop_entry l) }
{}
