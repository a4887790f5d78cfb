// Places as a script writes them.

use php_memdef::Name;
use php_value::Scalar;
use sqlite_items::Items;

/// Where a place begins.
#[derive(Drop)]
pub enum BaseForm {
    /// A variable of the newest frame's block.
    Variable(Name),
    /// A temporary: the lowest of those that the place takes.
    Standing,
    /// `$this`
    This,
}

/// One step of a place.
#[derive(Drop)]
pub enum StepForm {
    /// To the element of a key that the script writes out.
    Fixed(Scalar),
    /// To the element of a key that stands as a temporary.
    Evaluated,
    /// To a new element.
    Append,
}

/// A place, of which some parts stand as temporaries: the base, where it is `Standing`, and above it the
/// evaluated keys from left to right.
#[derive(Drop)]
pub struct PlaceForm {
    pub base: BaseForm,
    pub steps: Items<StepForm>,
}
