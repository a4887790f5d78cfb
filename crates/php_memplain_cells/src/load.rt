// What is being released.
ghost use Rattle.std.specs.Prelude.{◌≡◌, [], ◌∷◌, IfSome, IfNone};
ghost use Rattle.php_memdef.specs.Contents.{link};
ghost use Rattle.php_memdef.specs.Releases.{entry_links};
ghost use Rattle.php_memplain_cells.specs.Seen.{elements_left, properties_left};

use php_array::Entries;
use php_memdef::PropName;

/// A property of an object: its name and its store.
#[derive(Drop)]
pub struct Property {
    pub name: PropName,
    pub store: usize,
}

/// The elements of an array that are still to be released: those behind a serial.
#[derive(Drop)]
pub struct Elements {
    pub entries: Entries<usize>,
    pub passed: u64,
    // where the walk through the entries stands
    pub near: usize,
}

/// Something with stores that are released one after another.
#[derive(Drop)]
pub enum Load {
    /// An array of which nothing was released yet.
    Whole(Entries<usize>),
    Elements(Elements),
    /// The properties of an object that is gone, from a place on.
    Properties(Vec<Property>, usize),
}

impl Elements {
    /// All elements of an array.
    pub(crate) fn of(entries: Entries<usize>) -> Elements
        ensures { elements_left result ≡ entry_links entries.entries }
    {
        let _count = entries.len();
        Elements {
            entries,
            passed: 0,
            near: 0,
        }
    }

    /// The next store.
    pub(crate) fn next(&mut self) -> Option<usize>
        ensures some { IfSome result (λ s. elements_left self.old ≡ link s ∷ elements_left self.new) }
        ensures none { IfNone result (elements_left self.old ≡ []) }
    {
        let _count = self.entries.len();
        let (serial, store) = match self.entries.entry_after_near(self.passed, &mut self.near) {
            Some((serial, _, store)) => (serial, *store),
            None => return None,
        };
        self.passed = serial;
        Some(store)
    }
}

/// The store of the property at a place.
pub(crate) fn next_property(properties: &Vec<Property>, place: &mut usize) -> Option<usize>
    ensures some { IfSome result (λ s. properties_left properties.now.items place.old ≡ link s ∷ properties_left properties.now.items place.new) }
    ensures none { IfNone result (properties_left properties.now.items place.old ≡ []) }
{
    if *place < properties.len() {
        let store = properties[*place].store;
        *place += 1;
        Some(store)
    } else {
        None
    }
}
