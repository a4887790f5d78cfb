// Numbers of variables.
ghost use Rattle.std.specs.Prelude.{◌≡◌, OnOk, IfOk};
ghost use Rattle.php_meaning.specs.Slots.{slot_in, with_variable};

use indexmap::IndexSet;
use php_base::NoMemory;
use php_value::Text;

// One more name, where it is new and no `$this`.
pub fn add_name(names: &mut IndexSet<Text>, name: &Text) -> Result<(), NoMemory>
    ensures { OnOk result (names.new.keys ≡ with_variable names.old.keys name.now) }
{
    if name.bytes() == b"this".as_slice() {
        return Ok(());
    }
    names.insert_full(name.share()?)?;
    Ok(())
}

// The number of a name.
pub fn slot_of(names: &IndexSet<Text>, name: &Text) -> Result<u32, NoMemory>
    ensures { IfOk result (λ n. n ≡ slot_in names.now.keys name.now) }
{
    let number = match names.get_index_of(name) {
        Some(number) => number,
        None => 0,
    };
    match u32::try_from(number) {
        Ok(number) => Ok(number),
        Err(_) => Err(NoMemory),
    }
}
