// Loops.

ghost use Rattle.std.specs.Prelude.{◌≡◌, ◌≢◌, ◌≤◌, length};
ghost use Rattle.php_grammar.specs.statement.Role.{at_do, at_for, at_foreach, at_while, statement_beginning};
ghost use Rattle.php_reader.specs.Seen.{Shows};
ghost use Rattle.php_parse_simple.specs.Answer.{AnswersForm};
ghost use Rattle.php_parse_statement.specs.FormAnswer.{AnswersLoopBody};
ghost use Rattle.php_parse_simple.specs.declared.role.After.TheVariants.{Other};

use crate::inner::ReadsInner;
use crate::parser::Parser;
use crate::read::forget;
use php_ast::{Body, Stmt};
use php_parse_simple::build::{
    do_while_statement, for_statement, foreach_statement, while_statement,
};
use php_parse_simple::heads::{for_head, foreach_head, test};
use php_parse_simple::look::{sees, sees_after};
use php_parse_simple::read::ReadStatement;
use php_parse_simple::role::{After, Fixed};
use php_reader::look::spot;
use php_reader::{Entry, Stop};
use sqlite_items::Boxed;

impl<'t, R: ReadsInner> Parser<'t, R> {
    /// The body of a loop: a statement, or a list behind a colon up to the word `end` and `;`.
    fn loop_body(&self, at: usize, end: After) -> Result<Entry<Body<Stmt>>, Stop>
        requires within { at ≤ length self.now.reader.tokens.now }
        requires word { end ≢ Other }
        ensures { AnswersLoopBody end self.now.reader at result }
    {
        if !sees(self.reader.tokens, at, Fixed::Colon) {
            let read = self.body(at)?;
            return Ok(Entry {
                next: read.next,
                item: Body::Single(Boxed::new(self.reader.alloc, read.statement)?),
            });
        }
        let list = self.statements(at + 1)?;
        let word = list.next;
        if !sees_after(self.reader.tokens, word, end) {
            return Err(forget(list.items, Stop::Syntax(word)));
        }
        if !sees(self.reader.tokens, word + 1, Fixed::Semicolon) {
            return Err(forget(list.items, Stop::Syntax(word + 1)));
        }
        Ok(Entry {
            item: Body::Colon(list.items),
            next: word + 1 + 1,
        })
    }

    /// `while (..) ..`
    pub(crate) fn while_loop(&self, at: usize) -> Result<ReadStatement, Stop>
        requires { Shows statement_beginning self.now.reader.tokens.now at at_while }
        ensures { AnswersForm self.now.reader at result }
    {
        let test = test(&self.reader, at + 1)?;
        let body = self.loop_body(test.next, After::EndWhile)?;
        Ok(ReadStatement {
            statement: while_statement(spot(self.reader.tokens, at), test.item, body.item),
            next: body.next,
        })
    }

    /// `do .. while (..);`
    pub(crate) fn do_while(&self, at: usize) -> Result<ReadStatement, Stop>
        requires { Shows statement_beginning self.now.reader.tokens.now at at_do }
        ensures { AnswersForm self.now.reader at result }
    {
        let body = self.body(at + 1)?;
        let word = body.next;
        let inside = Boxed::new(self.reader.alloc, body.statement)?;
        if !sees_after(self.reader.tokens, word, After::While) {
            return Err(Stop::Syntax(word));
        }
        let test = test(&self.reader, word + 1)?;
        if !sees(self.reader.tokens, test.next, Fixed::Semicolon) {
            return Err(Stop::Syntax(test.next));
        }
        Ok(ReadStatement {
            next: test.next + 1,
            statement: do_while_statement(spot(self.reader.tokens, at), inside, test.item),
        })
    }

    /// `foreach (.. as ..) ..`
    pub(crate) fn foreach(&self, at: usize) -> Result<ReadStatement, Stop>
        requires { Shows statement_beginning self.now.reader.tokens.now at at_foreach }
        ensures { AnswersForm self.now.reader at result }
    {
        let head = foreach_head(&self.reader, at + 1)?;
        let body = self.loop_body(head.next, After::EndForeach)?;
        Ok(ReadStatement {
            statement: foreach_statement(spot(self.reader.tokens, at), head.item, body.item),
            next: body.next,
        })
    }

    /// `for (..; ..; ..) ..`
    pub(crate) fn for_loop(&self, at: usize) -> Result<ReadStatement, Stop>
        requires { Shows statement_beginning self.now.reader.tokens.now at at_for }
        ensures { AnswersForm self.now.reader at result }
    {
        let head = for_head(&self.reader, at + 1)?;
        let body = self.loop_body(head.next, After::EndFor)?;
        Ok(ReadStatement {
            statement: for_statement(spot(self.reader.tokens, at), head.item, body.item),
            next: body.next,
        })
    }
}
