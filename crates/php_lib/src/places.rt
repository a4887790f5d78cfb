// The places that a comparison goes to.
ghost use Rattle.std.specs.Prelude.{◌≡◌, IfOk};
ghost use Rattle.php_value.specs.declared.key.Key.{Key};
ghost use Rattle.php_memdef.specs.declared.place.Place.{Place};
ghost use Rattle.php_lib.specs.Comparing.{under, property_of};

use php_base::NoMemory;
use php_memdef::{Base, Obj, Path, Place, PropName, Step};
use php_value::Key;
use std::alloc::Global;

/// Goes on to the element under a key.
pub fn step_to(place: &mut Place, key: &Key) -> Result<(), NoMemory>
    ensures { IfOk result (λ _. place.new ≡ under place.old key.now) }
{
    place.path.push(Step::At(key.share()?))?;
    Ok(())
}

/// Goes back from an element to its array.
pub fn step_back(place: &mut Place)
    ensures { (p : Place) (k : Key) → place.old ≡ under p k → place.new ≡ p }
{
    place.path.pop();
}

/// The place of an object's property. The name's bytes are shared.
pub fn property_place(alloc: Global, obj: Obj, name: &PropName) -> Result<Place, NoMemory>
    ensures { IfOk result (λ p. p ≡ property_of obj name.now) }
{
    let name = PropName {
        name: name.name.share()?,
        seen: name.seen,
    };
    Ok(Place {
        base: Base::Property(obj, name),
        path: Path::new(alloc),
    })
}
