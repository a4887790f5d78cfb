// `if`, with statements as bodies and with lists behind colons.

ghost use Rattle.std.specs.Prelude.{◌≡◌, ◌≢◌, ◌≤◌, true, length};
ghost use Rattle.php_grammar.specs.expression.Role.{is_colon};
ghost use Rattle.php_grammar.specs.statement.Laws.{head_behind};
ghost use Rattle.php_grammar.specs.statement.Role.{at_if, statement_beginning};
ghost use Rattle.php_reader.specs.Seen.{Shows, rest};
ghost use Rattle.php_parse_simple.specs.Answer.{AnswersForm};
ghost use Rattle.php_parse_statement.specs.FormAnswer.{AnswersBranches, AnswersClosed, AnswersElseIfLists, AnswersElseIfs, AnswersListBranches};
ghost use Rattle.php_parse_simple.specs.RoleView.{ends_list};
ghost use Rattle.php_parse_simple.specs.declared.role.After.TheVariants.{Other};

use crate::inner::ReadsInner;
use crate::parser::Parser;
use crate::read::Branches;
use php_ast::{ElseIf, Stmt};
use php_parse_simple::build::{if_lists_statement, if_statement};
use php_parse_simple::heads::test;
use php_parse_simple::look::{sees, sees_after};
use php_parse_simple::read::ReadStatement;
use php_parse_simple::role::{After, Fixed};
use php_reader::look::spot;
use php_reader::{Listed, Stop};
use sqlite_items::{Boxed, Items};

impl<'t, R: ReadsInner> Parser<'t, R> {
    /// The `elseif` parts behind the body of an `if`.
    fn elseifs(&self, at: usize) -> Result<Listed<ElseIf<Boxed<Stmt>>>, Stop>
        requires { at ≤ length self.now.reader.tokens.now }
        ensures { AnswersElseIfs self.now.reader at result }
    {
        let mut items = Items::new(self.reader.alloc);
        let mut next = at;
        loop {
            if !sees_after(self.reader.tokens, next, After::ElseIf) {
                return Ok(Listed { items, next });
            }
            let head = test(&self.reader, next + 1)?;
            let read = self.body(head.next)?;
            next = read.next;
            let body = Boxed::new(self.reader.alloc, read.statement)?;
            items.push(ElseIf {
                test: head.item,
                body,
            })?;
        }
    }

    /// The bodies of an `if` that stand behind no colon.
    fn branches(&self, at: usize) -> Result<Branches<Boxed<Stmt>>, Stop>
        requires { at ≤ length self.now.reader.tokens.now }
        ensures { AnswersBranches self.now.reader at result }
    {
        let first = self.body(at)?;
        let behind = first.next;
        let body = Boxed::new(self.reader.alloc, first.statement)?;
        let parts = self.elseifs(behind)?;
        let word = parts.next;
        if !sees_after(self.reader.tokens, word, After::Else) {
            return Ok(Branches {
                body,
                next: word,
                parts: parts.items,
                last: None,
            });
        }
        let last = self.body(word + 1)?;
        Ok(Branches {
            body,
            parts: parts.items,
            next: last.next,
            last: Some(Boxed::new(self.reader.alloc, last.statement)?),
        })
    }

    /// The word that ends a list behind a colon, and `;`.
    pub(crate) fn closed(&self, at: usize, word: After) -> Result<usize, Stop>
        requires word { word ≢ Other }
        requires ended { ends_list (head_behind (rest self.now.reader.tokens.now at)) ≡ true }
        requires within { at ≤ length self.now.reader.tokens.now }
        ensures { AnswersClosed word self.now.reader at result }
    {
        if !sees_after(self.reader.tokens, at, word) {
            return Err(Stop::Syntax(at));
        }
        if !sees(self.reader.tokens, at + 1, Fixed::Semicolon) {
            return Err(Stop::Syntax(at + 1));
        }
        Ok(at + 1 + 1)
    }

    /// The `elseif` parts behind a list of an `if`, each with a list behind a colon.
    fn elseif_lists(&self, at: usize) -> Result<Listed<ElseIf<Items<Stmt>>>, Stop>
        requires within { at ≤ length self.now.reader.tokens.now }
        requires ended { ends_list (head_behind (rest self.now.reader.tokens.now at)) ≡ true }
        ensures { AnswersElseIfLists self.now.reader at result }
    {
        let mut items = Items::new(self.reader.alloc);
        let mut next = at;
        loop {
            if !sees_after(self.reader.tokens, next, After::ElseIf) {
                return Ok(Listed { items, next });
            }
            let head = test(&self.reader, next + 1)?;
            if !sees(self.reader.tokens, head.next, Fixed::Colon) {
                return Err(Stop::Syntax(head.next));
            }
            let list = self.statements(head.next + 1)?;
            next = list.next;
            items.push(ElseIf {
                test: head.item,
                body: list.items,
            })?;
        }
    }

    /// The lists of an `if`, from its colon on.
    fn list_branches(&self, at: usize) -> Result<Branches<Items<Stmt>>, Stop>
        requires { Shows is_colon self.now.reader.tokens.now at true }
        ensures { AnswersListBranches self.now.reader at result }
    {
        let first = self.statements(at + 1)?;
        let parts = self.elseif_lists(first.next)?;
        if !sees_after(self.reader.tokens, parts.next, After::Else) {
            let next = self.closed(parts.next, After::EndIf)?;
            return Ok(Branches {
                body: first.items,
                parts: parts.items,
                last: None,
                next,
            });
        }
        let colon = parts.next + 1;
        if !sees(self.reader.tokens, colon, Fixed::Colon) {
            return Err(Stop::Syntax(colon));
        }
        let last = self.statements(colon + 1)?;
        let next = self.closed(last.next, After::EndIf)?;
        Ok(Branches {
            body: first.items,
            parts: parts.items,
            last: Some(last.items),
            next,
        })
    }

    /// `if`, with all of its bodies.
    pub(crate) fn condition(&self, at: usize) -> Result<ReadStatement, Stop>
        requires { Shows statement_beginning self.now.reader.tokens.now at at_if }
        ensures { AnswersForm self.now.reader at result }
    {
        let head = test(&self.reader, at + 1)?;
        if sees(self.reader.tokens, head.next, Fixed::Colon) {
            let lists = self.list_branches(head.next)?;
            return Ok(ReadStatement {
                next: lists.next,
                statement: if_lists_statement(
                    spot(self.reader.tokens, at),
                    head.item,
                    lists.body,
                    lists.parts,
                    lists.last,
                ),
            });
        }
        let bodies = self.branches(head.next)?;
        Ok(ReadStatement {
            next: bodies.next,
            statement: if_statement(
                spot(self.reader.tokens, at),
                head.item,
                bodies.body,
                bodies.parts,
                bodies.last,
            ),
        })
    }
}
