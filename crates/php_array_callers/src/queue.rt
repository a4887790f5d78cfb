// A queue of numbers: an array that is appended to and taken from at the front.
ghost use Rattle.std.specs.Prelude.{◌≡◌, ◌++◌, [], ◌∷◌, pos, drop, IfOk, OnOk, OnErr};
ghost use Rattle.php_value.specs.declared.key.Key.TheVariants.{Int};
ghost use Rattle.php_array_callers.specs.Queue.{first_value};

use php_array::{Entries, NoAppend};
use php_base::{Ledger, NoMemory};
use php_value::Key;

/// Puts a number at the end.
pub fn enqueue(
    queue: &mut Entries<u32>,
    number: u32,
    ledger: &mut Ledger,
) -> Result<(), NoAppend<u32>>
    ensures ok { OnOk result (queue.new.entries ≡ queue.old.entries
        ++ record { serial = queue.old.next_serial; key = Int (pos queue.old.next_key); value = number } ∷ []) }
    ensures err { OnErr result (queue.new ≡ queue.old) }
{
    queue.append(number, ledger)?;
    Ok(())
}

/// Takes the first number out, where there is one.
pub fn dequeue(queue: &mut Entries<u32>) -> Result<Option<u32>, NoMemory>
    ensures first { IfOk result (λ number. number ≡ first_value queue.old.entries) }
    ensures rest { OnOk result (queue.new.entries ≡ drop 1 queue.old.entries) }
    ensures err { OnErr result (queue.new ≡ queue.old) }
{
    if queue.len() == 0 {
        return Ok(None);
    }
    let key = match queue.entry_after(0) {
        Some((_, key, _)) => copy_key(key)?,
        None => return Ok(None),
    };
    Ok(queue.remove(&key))
}

fn copy_key(key: &Key) -> Result<Key, NoMemory>
    ensures { IfOk result (λ k. k ≡ key.now) }
{
    match key {
        Key::Int(k) => Ok(Key::Int(*k)),
        Key::Str(text) => Ok(Key::Str(text.share()?)),
    }
}
