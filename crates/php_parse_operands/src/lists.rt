// Lists: arguments, the items of arrays and lists, and the values of `isset`.

ghost use Rattle.std.specs.Prelude.{◌≡◌, ◌≢◌, ◌≤◌, ◌<◌, ◌+◌, ◌-◌, ℕ, length, true, false};
ghost use Rattle.php_ast.specs.declared.operator.ArrayForm.TheVariants as array_form;
ghost use Rattle.php_ast.specs.expression.Tree as tree;
ghost use Rattle.php_grammar.specs.declared.closer.Closer.TheVariants as ender;
ghost use Rattle.php_grammar.specs.expression.Role as role;
ghost use Rattle.php_grammar.specs.expression.Role.{beginning, closes, draws};
ghost use Rattle.php_grammar.specs.expression.Laws.{head_continuation};
ghost use Rattle.php_ast.specs.expression.View.{view};
ghost use Rattle.php_parse_operands.specs.Answer.{AnswersLeaf};
ghost use Rattle.php_parse_operands.specs.ListAnswer.{AnswersArgument, AnswersArguments, AnswersItem, AnswersItems, AnswersKeyed, AnswersValues, closer_in};
ghost use Rattle.php_build.specs.Flat.{is_flat};
ghost use Rattle.php_reader.specs.Seen.{Shows, rest};
ghost use Rattle.php_reader.specs.RoleView.{IsDue};

use crate::inner::ReadsInner;
use crate::parser::Parser;
use crate::read::{Element, Read, Taken};
use php_ast::{Argument, ArrayForm, Expr, Item};
use php_build::build::{array_expr, is_set_expr};
use php_build::parts::ended;
use php_grammar::Closer;
use php_lex::Tokens;
use php_reader::limit::{LEAST_POWER, TOP};
use php_reader::look::{
    closed_by, due_at, ended_by, is_reference, is_spread, next_at, sees_paren, spot,
};
use php_reader::role::Due;
use php_reader::{Listed, Stop};
use sqlite_items::Items;
use std::alloc::Global;

/// What ends the items of an array or a list.
fn closer_of(form: ArrayForm) -> Closer
    ensures { result ≡ closer_in form }
{
    match form {
        ArrayForm::Brackets => Closer::Bracket,
        ArrayForm::Array | ArrayForm::List => Closer::Paren,
    }
}

impl<'t, R: ReadsInner> Parser<'t, R> {
    /// An argument. The token at its place is `due`.
    fn argument(&self, at: usize, due: Due) -> Result<Element<Argument<Expr>>, Stop>
        requires within { at ≤ length self.now.reader.tokens.now }
        requires seen { IsDue self.now.reader.tokens.now at due }
        requires no_end { head_continuation (rest self.now.reader.tokens.now at) ≢ closes ender.Paren }
        ensures { AnswersArgument self.now.reader at result }
    {
        if is_spread(due.mark) {
            if self.reader.room == 1 {
                return Err(Stop::TooDeep(at));
            }
            let Read {
                expr,
                edge: _,
                next,
                behind,
            } = self.deeper(at + 1, LEAST_POWER)?;
            return Ok(Element {
                item: Argument::Spread(expr),
                next,
                behind,
            });
        }
        let Read {
            expr,
            edge: _,
            next,
            behind,
        } = self.deeper_begun(at, due.start, LEAST_POWER)?;
        Ok(Element {
            item: Argument::Value(expr),
            next,
            behind,
        })
    }

    /// One argument or more, and the parenthesis behind them. The token at their place is `due`.
    fn some_arguments(&self, at: usize, due: Due) -> Result<Listed<Argument<Expr>>, Stop>
        requires within { at ≤ length self.now.reader.tokens.now }
        requires seen { IsDue self.now.reader.tokens.now at due }
        requires no_end { head_continuation (rest self.now.reader.tokens.now at) ≢ closes ender.Paren }
        ensures { AnswersArguments self.now.reader at result }
    {
        let mut items = Items::new(self.reader.alloc);
        let mut next = at;
        let mut due = due;
        loop {
            let entry = self.argument(next, due)?;
            items.push(entry.item)?;
            if closed_by(entry.behind, Closer::Paren) {
                return Ok(Listed {
                    items,
                    next: entry.next + 1,
                });
            }
            if !closed_by(entry.behind, Closer::Comma) {
                return Err(Stop::Syntax(entry.next));
            }
            next = entry.next + 1;
            due = due_at(self.reader.tokens, next);
            // No argument begins with it, and none is read before this is known.
            if ended_by(due.mark, Closer::Paren) {
                return Err(Stop::Syntax(next));
            }
        }
    }

    /// Arguments and the parenthesis behind them.
    pub(crate) fn arguments(&self, at: usize) -> Result<Listed<Argument<Expr>>, Stop>
        requires within { at ≤ length self.now.reader.tokens.now }
        ensures { AnswersArguments self.now.reader at result }
    {
        let due = due_at(self.reader.tokens, at);
        if !ended_by(due.mark, Closer::Paren) {
            return self.some_arguments(at, due);
        }
        if self.reader.room == 1 {
            return Err(Stop::TooDeep(at));
        }
        Ok(Listed {
            items: Items::new(self.reader.alloc),
            next: at + 1,
        })
    }

    /// The values of `isset`, and the parenthesis behind them.
    fn values(&self, at: usize) -> Result<Listed<Expr>, Stop>
        requires within { at ≤ length self.now.reader.tokens.now }
        ensures { AnswersValues self.now.reader at result }
    {
        let mut items = Items::new(self.reader.alloc);
        let mut next = at;
        loop {
            let value = self.deeper(next, LEAST_POWER)?;
            items.push(value.expr)?;
            if closed_by(value.behind, Closer::Paren) {
                return Ok(Listed {
                    items,
                    next: value.next + 1,
                });
            }
            if !closed_by(value.behind, Closer::Comma) {
                return Err(Stop::Syntax(value.next));
            }
            next = value.next + 1;
        }
    }

    /// `isset(..)`
    pub(crate) fn is_set(&self, at: usize) -> Result<Taken, Stop>
        requires here { Shows beginning self.now.reader.tokens.now at (role.at_listed tree.is_set) }
        ensures { AnswersLeaf self.now.reader at result }
    {
        let paren = at + 1;
        if !sees_paren(self.reader.tokens, paren) {
            return Err(Stop::Syntax(paren));
        }
        let values = self.values(paren + 1)?;
        Ok(Taken {
            next: values.next,
            behind: next_at(self.reader.tokens, values.next),
            expr: is_set_expr(spot(self.reader.tokens, at), values.items),
            edge: TOP,
        })
    }

    /// An item with a key, from behind its `=>`.
    fn keyed(&self, at: usize, key: Expr) -> Result<Element<Item<Expr>>, Stop>
        requires within { at ≤ length self.now.reader.tokens.now }
        requires deep { 2 ≤ self.now.reader.room }
        requires flat { is_flat key ≡ true }
        ensures { AnswersKeyed (view key) self.now.reader at result }
    {
        let due = due_at(self.reader.tokens, at);
        if is_reference(due.mark) {
            let Read {
                expr,
                edge: _,
                next,
                behind,
            } = self.deeper(at + 1, LEAST_POWER)?;
            return Ok(Element {
                item: Item::KeyedReference(key, expr),
                next,
                behind,
            });
        }
        let Read {
            expr,
            edge: _,
            next,
            behind,
        } = self.deeper_begun(at, due.start, LEAST_POWER)?;
        Ok(Element {
            item: Item::Keyed(key, expr),
            next,
            behind,
        })
    }

    /// An item that is not missing. The token at its place is `due`.
    fn item(&self, at: usize, due: Due, form: ArrayForm) -> Result<Element<Item<Expr>>, Stop>
        requires within { at ≤ length self.now.reader.tokens.now }
        requires seen { IsDue self.now.reader.tokens.now at due }
        requires no_comma { head_continuation (rest self.now.reader.tokens.now at) ≢ closes ender.Comma }
        requires no_end { head_continuation (rest self.now.reader.tokens.now at) ≢ closes (closer_in form) }
        ensures { AnswersItem form self.now.reader at result }
    {
        if is_reference(due.mark) {
            if self.reader.room == 1 {
                return Err(Stop::TooDeep(at));
            }
            let Read {
                expr,
                edge: _,
                next,
                behind,
            } = self.deeper(at + 1, LEAST_POWER)?;
            return Ok(Element {
                item: Item::Reference(expr),
                next,
                behind,
            });
        }
        let Read {
            expr,
            edge: _,
            next,
            behind,
        } = self.deeper_begun(at, due.start, LEAST_POWER)?;
        if closed_by(behind, Closer::DoubleArrow) {
            return self.keyed(next + 1, expr);
        }
        Ok(Element {
            item: Item::Value(expr),
            next,
            behind,
        })
    }

    /// The items of an array or a list, and the token that closes it.
    fn items(&self, at: usize, form: ArrayForm) -> Result<Listed<Item<Expr>>, Stop>
        requires within { at ≤ length self.now.reader.tokens.now }
        ensures { AnswersItems form self.now.reader at result }
    {
        let mut items = Items::new(self.reader.alloc);
        let mut next = at;
        loop {
            let due = due_at(self.reader.tokens, next);
            if ended_by(due.mark, closer_of(form)) {
                if self.reader.room == 1 {
                    return Err(Stop::TooDeep(next));
                }
                return Ok(Listed {
                    items: ended(items)?,
                    next: next + 1,
                });
            }
            if ended_by(due.mark, Closer::Comma) {
                if self.reader.room == 1 {
                    return Err(Stop::TooDeep(next));
                }
                items.push(Item::Missing)?;
                next += 1;
            } else {
                let entry = self.item(next, due, form)?;
                items.push(entry.item)?;
                if closed_by(entry.behind, closer_of(form)) {
                    return Ok(Listed {
                        items,
                        next: entry.next + 1,
                    });
                }
                if !closed_by(entry.behind, Closer::Comma) {
                    return Err(Stop::Syntax(entry.next));
                }
                next = entry.next + 1;
            }
        }
    }

    /// `[..]`
    fn brackets(&self, at: usize) -> Result<Taken, Stop>
        requires here { Shows beginning self.now.reader.tokens.now at (role.at_listed (tree.array array_form.Brackets)) }
        ensures { AnswersLeaf self.now.reader at result }
    {
        let items = self.items(at + 1, ArrayForm::Brackets)?;
        Ok(Taken {
            next: items.next,
            behind: next_at(self.reader.tokens, items.next),
            expr: array_expr(
                spot(self.reader.tokens, at),
                ArrayForm::Brackets,
                items.items,
            ),
            edge: TOP,
        })
    }

    /// `array(..)` or `list(..)`
    fn words(&self, at: usize, form: ArrayForm) -> Result<Taken, Stop>
        requires here { Shows beginning self.now.reader.tokens.now at (role.at_listed (tree.array form)) }
        requires word { form ≢ array_form.Brackets }
        ensures { AnswersLeaf self.now.reader at result }
    {
        let paren = at + 1;
        if !sees_paren(self.reader.tokens, paren) {
            return Err(Stop::Syntax(paren));
        }
        let items = self.items(paren + 1, form)?;
        Ok(Taken {
            next: items.next,
            behind: next_at(self.reader.tokens, items.next),
            expr: array_expr(spot(self.reader.tokens, at), form, items.items),
            edge: TOP,
        })
    }

    /// An array or a list.
    pub(crate) fn array(&self, at: usize, form: ArrayForm) -> Result<Taken, Stop>
        requires here { Shows beginning self.now.reader.tokens.now at (role.at_listed (tree.array form)) }
        ensures { AnswersLeaf self.now.reader at result }
    {
        match form {
            ArrayForm::Brackets => self.brackets(at),
            ArrayForm::Array | ArrayForm::List => self.words(at, form),
        }
    }
}
