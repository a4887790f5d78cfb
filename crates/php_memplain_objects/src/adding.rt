// New objects.
ghost use Rattle.std.specs.Prelude.{◌≡◌, ◌++◌, [], ◌∷◌, map, Some, IfOk, OnOk, OnErr, Box};
ghost use Rattle.std.specs.declared.alloc.Global.{Global};
ghost use Rattle.php_memdef.specs.Objects.{new_object};
ghost use Rattle.php_memplain_cells.specs.declared.objects.Object.{Object};
ghost use Rattle.php_memplain_cells.specs.Seen.{property_seen, box_seen};
ghost use Rattle.php_memplain_cells.specs.Memory.{IsCounted};
ghost use Rattle.php_memplain_content.specs.Copies.{IsBack};
ghost use Rattle.php_memplain_objects.specs.Making.{made_object, IsAppended, IsUnchanged, IsNew};

use php_base::NoMemory;
use php_chain::Link;
use php_memplain_cells::{Cells, Object, Property};
use std::alloc::Global;

// An object that one thing holds.
fn boxed(
    alloc: Global,
    class: u32,
    finishing: bool,
    properties: Vec<Property>,
) -> Result<Box<Object>, NoMemory>
    ensures { IfOk result (λ o. (box_seen o ≡ made_object class finishing (map property_seen properties.items)) × (o.value.holders ≡ 1)) }
{
    let link = Link::new(alloc)?;
    let object = Object {
        class,
        properties,
        finishing,
        spent: false,
        frame: None,
        holders: 1,
        link,
    };
    Ok(Box::new(alloc, object)?)
}

// Puts an object behind all others.
fn put_object(objects: &mut Vec<Option<Box<Object>>>, object: Box<Object>) -> Result<(), NoMemory>
    ensures ok { OnOk result (objects.new.items ≡ objects.old.items ++ Some object ∷ []) }
    ensures no_memory { OnErr result (objects.new.items ≡ objects.old.items) }
{
    objects.push(Some(object))?;
    Ok(())
}

// Makes an object and puts it behind all others.
fn add(
    alloc: Global,
    objects: &mut Vec<Option<Box<Object>>>,
    class: u32,
    finishing: bool,
    properties: Vec<Property>,
) -> Result<(), NoMemory>
    ensures ok { OnOk result ((o : Box Object Global) × ((objects.new.items ≡ objects.old.items ++ Some o ∷ []) × ((box_seen o ≡ made_object class finishing (map property_seen properties.items)) × (o.value.holders ≡ 1)))) }
    ensures no_memory { OnErr result (objects.new.items ≡ objects.old.items) }
{
    let Ok(object) = boxed(alloc, class, finishing, properties) else {
        return Err(NoMemory);
    };
    match put_object(objects, object) {
        Ok(()) => Ok(()),
        Err(_) => Err(NoMemory),
    }
}

/// Makes an object that has the next number and one holder, which is at hand. No number is ever used up, since a
/// `Vec` holds no more objects than there are numbers.
pub(crate) fn append(
    cells: &mut Cells,
    class: u32,
    finishing: bool,
    properties: Vec<Property>,
) -> Result<u64, NoMemory>
    ensures made { IfOk result (λ n. IsAppended cells.old (made_object class finishing (map property_seen properties.items)) n cells.new) }
    ensures no_memory { OnErr result (IsUnchanged cells.old cells.new) }
    ensures blocks { cells.new.blocks ≡ cells.old.blocks }
    ensures ledger { cells.new.ledger ≡ cells.old.ledger }
{
    let number = cells.objects.len() as u64 + 1;
    match add(
        cells.alloc,
        &mut cells.objects,
        class,
        finishing,
        properties,
    ) {
        Ok(()) => Ok(number),
        Err(_) => Err(NoMemory),
    }
}

/// Makes an object without properties, whose handle is at hand.
pub fn make_object(cells: &mut Cells, class: u32, finishing: bool) -> Result<u64, NoMemory>
    requires { IsCounted cells.old }
    ensures made { IfOk result (λ n. IsNew cells.old (new_object class finishing) n cells.new) }
    ensures no_memory { OnErr result (IsBack cells.old cells.new) }
    ensures ledger { cells.new.ledger ≡ cells.old.ledger }
{
    let none = Vec::new(cells.alloc);
    append(cells, class, finishing, none)
}
