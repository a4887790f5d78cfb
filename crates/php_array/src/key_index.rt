// How the entry of a key is found.
ghost use Rattle.std.specs.Prelude.{◌≡◌};

use crate::key_places::{find_place, forget_place};
use crate::packed::packed_place;
use indexmap::IndexMap;
use php_value::Key;

/// Where the entries of the keys stand.
#[derive(Drop)]
pub enum KeyIndex {
    /// An entry that stands at a place has the int key that is the place plus this number.
    Packed(u64),
    /// The place of each key.
    Hashed(IndexMap<Key, usize>),
}

impl KeyIndex {
    ghost use Rattle.php_array.specs.Index.{candidate, ForgetsKey};

    /// The one place at which an entry with this key may stand.
    pub fn candidate(&self, key: &Key) -> Option<usize>
        ensures { result ≡ candidate self.now key.now }
    {
        match self {
            KeyIndex::Packed(first) => packed_place(*first, key),
            KeyIndex::Hashed(places) => find_place(places, key),
        }
    }

    /// Forgets a key.
    pub fn forget(&mut self, key: &Key)
        ensures { ForgetsKey self.old self.new key.now }
    {
        match self {
            KeyIndex::Packed(_) => {}
            KeyIndex::Hashed(places) => forget_place(places, key),
        }
    }
}
