// Names between commas.

ghost use Rattle.std.specs.Prelude.{◌≤◌, length};
ghost use Rattle.php_parse_member.specs.RuleAnswer.{AnswersNames};

use php_ast::Name;
use php_grammar::Closer;
use php_parse_simple::look::{bare_name_at, ends};
use php_reader::{Listed, Reader, Stop};
use sqlite_items::Items;

/// One name or more, with a comma between each two, up to what is no comma.
pub(crate) fn names_at(reader: &Reader, at: usize) -> Result<Listed<Name>, Stop>
    requires within { at ≤ length reader.now.tokens.now }
    ensures { AnswersNames reader.entry.now at result }
{
    let mut names = Items::new(reader.alloc);
    let mut next = at;
    loop {
        let Some(name) = bare_name_at(reader.alloc, reader.tokens, next)? else {
            return Err(Stop::Syntax(next));
        };
        names.push(name)?;
        let behind = next + 1;
        if !ends(reader.tokens, behind, Closer::Comma) {
            return Ok(Listed {
                items: names,
                next: behind,
            });
        }
        next = behind + 1;
    }
}
