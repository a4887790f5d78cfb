// What stands before the members of a class, an interface or a trait.

ghost use Rattle.std.specs.Prelude.{◌≡◌, ◌≤◌, ◌<◌, length};
ghost use Rattle.php_grammar.specs.declaration.ScriptMachine.{at_interface, item_role};
ghost use Rattle.php_reader.specs.Seen.{Shows};
ghost use Rattle.php_parse_script.specs.Look.{BeginsClass};
ghost use Rattle.php_parse_script.specs.Answer.{AnswersClassHeading, AnswersInterfaceHeading, AnswersWords};

use crate::look::{class_word_at, sees_class};
use crate::names::{interfaces, name, parent, parents};
use crate::read::{ClassHeading, InterfaceHeading, ReadWords};
use php_reader::look::spot;
use php_reader::{Reader, Stop};
use sqlite_items::Items;

/// The words before `class`, up to `class`.
fn class_words(reader: &Reader, at: usize) -> Result<ReadWords, Stop>
    requires { BeginsClass reader.now.tokens.now at }
    ensures { AnswersWords reader.entry.now at result }
{
    let mut words = Items::new(reader.alloc);
    let mut next = at;
    loop {
        if sees_class(reader.tokens, next) {
            return Ok(ReadWords { words, next });
        }
        let Some(word) = class_word_at(reader.tokens, next) else {
            return Err(Stop::Syntax(next));
        };
        words.push((spot(reader.tokens, next), word))?;
        next += 1;
    }
}

/// The heading of a class.
pub(crate) fn class_heading(reader: &Reader, at: usize) -> Result<ClassHeading, Stop>
    requires { BeginsClass reader.now.tokens.now at }
    ensures { AnswersClassHeading reader.entry.now at result }
{
    let read = class_words(reader, at)?;
    let place = read.next + 1;
    let name = name(reader, place)?;
    let parent = parent(reader, place + 1)?;
    let interfaces = interfaces(reader, parent.next)?;
    Ok(ClassHeading {
        spot: spot(reader.tokens, read.next),
        modifiers: read.words,
        name,
        parent: parent.parent,
        interfaces: interfaces.items,
        next: interfaces.next,
    })
}

/// The heading of an interface.
pub(crate) fn interface_heading(reader: &Reader, at: usize) -> Result<InterfaceHeading, Stop>
    requires { Shows item_role reader.now.tokens.now at at_interface }
    ensures { AnswersInterfaceHeading reader.entry.now at result }
{
    let place = at + 1;
    let name = name(reader, place)?;
    let parents = parents(reader, place + 1)?;
    Ok(InterfaceHeading {
        spot: spot(reader.tokens, at),
        name,
        parents: parents.items,
        next: parents.next,
    })
}
