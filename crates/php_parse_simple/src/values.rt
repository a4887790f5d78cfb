// Values between commas.

ghost use Rattle.std.specs.Prelude.{◌≤◌, length};
ghost use Rattle.php_parse_simple.specs.Answer.{AnswersValues};

use crate::expression::expression;
use crate::look::ends;
use php_ast::Expr;
use php_grammar::Closer;
use php_reader::{Listed, Reader, Stop};
use sqlite_items::Items;

/// One value or more, with a comma between each two, up to what is no comma.
pub fn values(reader: &Reader, at: usize) -> Result<Listed<Expr>, Stop>
    requires { at ≤ length reader.now.tokens.now }
    ensures { AnswersValues reader.entry.now at result }
{
    let mut items = Items::new(reader.alloc);
    let mut next = at;
    loop {
        let read = expression(reader, next)?;
        let behind = read.next;
        items.push(read.expr)?;
        if !ends(reader.tokens, behind, Closer::Comma) {
            return Ok(Listed {
                items,
                next: behind,
            });
        }
        next = behind + 1;
    }
}
