// Whole scripts: one item behind the other, up to the end of the tokens.

ghost use Rattle.std.specs.Prelude.{◌≡◌, ◌≤◌};
ghost use Rattle.php_parse_script.specs.Answer.{AnswersScript};

use crate::items::item;
use crate::look::stands;
use crate::read::ReadScript;
use php_ast::Script;
use php_reader::{Reader, Stop};
use sqlite_items::Items;

/// The script that all tokens spell.
pub(crate) fn read_script(reader: &Reader) -> Result<ReadScript, Stop>
    requires deep { 2 ≤ reader.now.room }
    ensures { AnswersScript reader.entry.now result }
{
    let mut items = Items::new(reader.alloc);
    let mut next = 0;
    loop {
        if !stands(reader.tokens, next) {
            return Ok(ReadScript {
                script: Script { items },
            });
        }
        let read = item(reader, next)?;
        items.push(read.item)?;
        next = read.next;
    }
}
