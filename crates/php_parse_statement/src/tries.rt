// `try`, with what stands behind its block.

ghost use Rattle.std.specs.Prelude.{◌≡◌, ◌≤◌, length};
ghost use Rattle.php_grammar.specs.statement.Role.{at_try, behind, by_catch, statement_beginning};
ghost use Rattle.php_reader.specs.Seen.{Shows};
ghost use Rattle.php_parse_simple.specs.Answer.{AnswersForm};
ghost use Rattle.php_parse_statement.specs.TryAnswer.{AnswersBlock, AnswersCatch, AnswersCatches, AnswersHandlers};

use crate::inner::ReadsInner;
use crate::parser::Parser;
use crate::read::Handlers;
use php_ast::{Catch, Stmt};
use php_parse_simple::build::try_statement;
use php_parse_simple::catches::caught;
use php_parse_simple::look::{sees, sees_after};
use php_parse_simple::read::ReadStatement;
use php_parse_simple::role::{After, Fixed};
use php_reader::look::spot;
use php_reader::{Entry, Listed, Stop};
use sqlite_items::Items;

impl<'t, R: ReadsInner> Parser<'t, R> {
    /// A block of a `try`, with its braces.
    fn guarded(&self, at: usize) -> Result<Listed<Stmt>, Stop>
        requires { at ≤ length self.now.reader.tokens.now }
        ensures { AnswersBlock self.now.reader at result }
    {
        if !sees(self.reader.tokens, at, Fixed::LeftBrace) {
            return Err(Stop::Syntax(at));
        }
        self.braced(at + 1)
    }

    /// `catch (..) { .. }`
    fn catch(&self, at: usize) -> Result<Entry<Catch<Stmt>>, Stop>
        requires { Shows behind self.now.reader.tokens.now at by_catch }
        ensures { AnswersCatch self.now.reader at result }
    {
        let head = caught(&self.reader, at + 1)?;
        let body = self.guarded(head.next)?;
        Ok(Entry {
            next: body.next,
            item: Catch {
                classes: head.classes,
                variable: head.variable,
                body: body.items,
            },
        })
    }

    /// The `catch` parts behind the block of a `try`.
    fn catches(&self, at: usize) -> Result<Listed<Catch<Stmt>>, Stop>
        requires { at ≤ length self.now.reader.tokens.now }
        ensures { AnswersCatches self.now.reader at result }
    {
        let mut items = Items::new(self.reader.alloc);
        let mut next = at;
        loop {
            if !sees_after(self.reader.tokens, next, After::Catch) {
                return Ok(Listed { items, next });
            }
            let part = self.catch(next)?;
            items.push(part.item)?;
            next = part.next;
        }
    }

    /// What stands behind the block of a `try`.
    fn handlers(&self, at: usize) -> Result<Handlers, Stop>
        requires { at ≤ length self.now.reader.tokens.now }
        ensures { AnswersHandlers self.now.reader at result }
    {
        let catches = self.catches(at)?;
        if sees_after(self.reader.tokens, catches.next, After::Finally) {
            let last = self.guarded(catches.next + 1)?;
            return Ok(Handlers {
                next: last.next,
                catches: catches.items,
                last: Some(last.items),
            });
        }
        if catches.items.is_empty() {
            return Err(Stop::Syntax(catches.next));
        }
        Ok(Handlers {
            next: catches.next,
            catches: catches.items,
            last: None,
        })
    }

    /// `try { .. } ..`
    pub(crate) fn try_block(&self, at: usize) -> Result<ReadStatement, Stop>
        requires { Shows statement_beginning self.now.reader.tokens.now at at_try }
        ensures { AnswersForm self.now.reader at result }
    {
        let body = self.guarded(at + 1)?;
        let handlers = self.handlers(body.next)?;
        Ok(ReadStatement {
            next: handlers.next,
            statement: try_statement(
                spot(self.reader.tokens, at),
                body.items,
                handlers.catches,
                handlers.last,
            ),
        })
    }
}
