// Actions on places. [K] is what the place takes of temporaries: its base, where that is one, and its keys.

use crate::place_form::PlaceForm;

#[derive(Drop)]
pub enum PlaceAction {
    /// [K] → [value]. Throws `NO_THIS`, `BAD_OFFSET`, `TYPE_MISMATCH`. No key may be read of an object: what that
    /// throws names a class.
    Read(PlaceForm),
    /// [K value] → [value]: a copy of the value moves into the place, and what the place held falls. Throws
    /// `NO_THIS`, `NOT_AN_ARRAY`, `NO_KEY_LEFT`, `TYPE_MISMATCH`; fault `ArrayLimit`.
    Assign(PlaceForm),
}
