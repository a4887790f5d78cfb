// Lists of statements, blocks, and bodies.

ghost use Rattle.std.specs.Prelude.{◌≤◌, length};
ghost use Rattle.php_grammar.specs.statement.Depth.{depth_outside};
ghost use Rattle.php_grammar.specs.statement.Role.{at_block, statement_beginning};
ghost use Rattle.php_reader.specs.Seen.{Shows};
ghost use Rattle.php_parse_simple.specs.Answer.{AnswersBy};
ghost use Rattle.php_parse_statement.specs.ListAnswer.{AnswersBody, AnswersBraced, AnswersStatements};

use crate::inner::ReadsInner;
use crate::parser::Parser;
use crate::read::forget;
use php_ast::Stmt;
use php_parse_simple::build::block_statement;
use php_parse_simple::look::{begun_at, list_ends, sees_after};
use php_parse_simple::read::ReadStatement;
use php_parse_simple::role::{After, Begun};
use php_reader::look::spot;
use php_reader::{Listed, Stop};
use sqlite_items::Items;

impl<'t, R: ReadsInner> Parser<'t, R> {
    /// The statements of a list, up to a token that ends one.
    pub(crate) fn statements(&self, at: usize) -> Result<Listed<Stmt>, Stop>
        requires { at ≤ length self.now.reader.tokens.now }
        ensures { AnswersStatements self.now.reader at result }
    {
        let mut items = Items::new(self.reader.alloc);
        let mut next = at;
        loop {
            if list_ends(self.reader.tokens, next) {
                return Ok(Listed { items, next });
            }
            let read = self.deeper(next)?;
            items.push(read.statement)?;
            next = read.next;
        }
    }

    /// The statements behind a `{`, and the `}` behind them.
    pub(crate) fn braced(&self, at: usize) -> Result<Listed<Stmt>, Stop>
        requires { at ≤ length self.now.reader.tokens.now }
        ensures { AnswersBraced self.now.reader at result }
    {
        let list = self.statements(at)?;
        let end = list.next;
        if !sees_after(self.reader.tokens, end, After::Brace) {
            return Err(forget(list.items, Stop::Syntax(end)));
        }
        if self.reader.room == 1 {
            return Err(forget(list.items, Stop::TooDeep(end)));
        }
        Ok(Listed {
            items: list.items,
            next: end + 1,
        })
    }

    /// `{ .. }`
    pub(crate) fn block(&self, at: usize) -> Result<ReadStatement, Stop>
        requires { Shows statement_beginning self.now.reader.tokens.now at at_block }
        ensures { AnswersBy depth_outside self.now.reader at result }
    {
        let list = self.braced(at + 1)?;
        Ok(ReadStatement {
            statement: block_statement(spot(self.reader.tokens, at), list.items),
            next: list.next,
        })
    }

    /// A statement that is a body. A block nests in its braces alone.
    pub(crate) fn body(&self, at: usize) -> Result<ReadStatement, Stop>
        requires { at ≤ length self.now.reader.tokens.now }
        ensures { AnswersBody self.now.reader at result }
    {
        match begun_at(self.reader.tokens, at) {
            Begun::Block => self.block(at),
            _ => self.deeper(at),
        }
    }
}
