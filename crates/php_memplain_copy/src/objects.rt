// Objects that get a further holder.
ghost use Rattle.std.specs.Prelude.{◌≡◌, ◌<◌, ◌-◌, [], ◌∷◌, false, IsTrue};
ghost use Rattle.php_memplain_cells.specs.Seen.{objects_seen};
ghost use Rattle.php_memplain_cells.specs.Counts.{count_of_object, AreSameHandles, AreFewerHandles};
ghost use Rattle.php_memplain_copy.specs.More.{AreMoreHandles, GainIs};

use php_memplain_cells::Object;

// One holder more, unless the count can't rise.
fn gain(object: &mut Object) -> bool
    ensures { GainIs result object.old object.new }
{
    match object.holders.checked_add(1) {
        Some(holders) => {
            object.holders = holders;
            true
        }
        None => false,
    }
}

/// Gives an object a further holder. It answers false, and changes nothing, where the count can't rise.
pub fn raise_object(objects: &mut Vec<Option<Box<Object>>>, number: u64) -> bool
    requires { 0 < count_of_object objects.old.items number }
    ensures seen { objects_seen objects.new.items ≡ objects_seen objects.old.items }
    ensures raised { IsTrue result → AreMoreHandles objects.old.items objects.new.items (number ∷ []) }
    ensures kept { result ≡ false → AreSameHandles objects.old.items objects.new.items }
{
    let place = (number - 1) as usize;
    let Some(mut object) = objects[place].take() else {
        unreachable!();
    };
    let is_raised = gain(&mut object);
    objects[place] = Some(object);
    is_raised
}

fn lose(object: &mut Object)
    requires { 0 < object.old.holders }
    ensures { object.new ≡ record object.old { holders = object.old.holders - 1 } }
{
    object.holders -= 1;
}

/// Takes a further holder of an object away.
pub fn lower_object(objects: &mut Vec<Option<Box<Object>>>, number: u64)
    requires { 1 < count_of_object objects.old.items number }
    ensures seen { objects_seen objects.new.items ≡ objects_seen objects.old.items }
    ensures fewer { AreFewerHandles objects.old.items objects.new.items number }
{
    let place = (number - 1) as usize;
    let Some(mut object) = objects[place].take() else {
        unreachable!();
    };
    lose(&mut object);
    objects[place] = Some(object);
}
