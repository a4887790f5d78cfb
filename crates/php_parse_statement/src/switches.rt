// `switch`, with its cases in braces or behind a colon.

ghost use Rattle.std.specs.Prelude.{◌≡◌, ◌≤◌, true, length};
ghost use Rattle.php_grammar.specs.statement.Role.{at_switch, behind, statement_beginning};
ghost use Rattle.php_ast.specs.declared.statement.SwitchForm.TheVariants.{Braces, Colon};
ghost use Rattle.php_reader.specs.Seen.{Shows};
ghost use Rattle.php_parse_simple.specs.Answer.{AnswersForm};
ghost use Rattle.php_parse_simple.specs.LabelAnswer.{label_behind};
ghost use Rattle.php_parse_statement.specs.CaseAnswer.{AnswersCase, AnswersCases, AnswersEnclosed, SeesLabel};

use crate::inner::ReadsInner;
use crate::parser::Parser;
use crate::read::drop_cases;
use php_ast::{Case, Stmt, SwitchForm};
use php_lex::Tokens;
use php_parse_simple::build::switch_statement;
use php_parse_simple::heads::test;
use php_parse_simple::labels::{cases_form, label};
use php_parse_simple::look::{after_at, sees, sees_after};
use php_parse_simple::read::ReadStatement;
use php_parse_simple::role::{After, Fixed};
use php_reader::look::spot;
use php_reader::{Entry, Listed, Stop};
use sqlite_items::Items;

/// Whether the label that begins at a place, if one does, is a `default`.
fn label_at(tokens: &Tokens, at: usize) -> Option<bool>
    ensures { SeesLabel tokens.now at result }
{
    match after_at(tokens, at) {
        After::Case => Some(false),
        After::Default => Some(true),
        _ => None,
    }
}

impl<'t, R: ReadsInner> Parser<'t, R> {
    /// A label and the statements behind it.
    fn case(&self, at: usize, is_default: bool) -> Result<Entry<Case<Stmt>>, Stop>
        requires { Shows behind self.now.reader.tokens.now at (label_behind is_default) }
        ensures { AnswersCase self.now.reader at result }
    {
        let label = label(&self.reader, at, is_default)?;
        let list = self.statements(label.next)?;
        Ok(Entry {
            next: list.next,
            item: Case {
                spot: spot(self.reader.tokens, at),
                value: label.value,
                end: label.end,
                body: list.items,
            },
        })
    }

    /// The cases of a `switch`, up to what begins none.
    fn cases(&self, at: usize) -> Result<Listed<Case<Stmt>>, Stop>
        requires { at ≤ length self.now.reader.tokens.now }
        ensures { AnswersCases self.now.reader at result }
    {
        let mut items = Items::new(self.reader.alloc);
        let mut next = at;
        loop {
            let Some(is_default) = label_at(self.reader.tokens, next) else {
                return Ok(Listed { items, next });
            };
            let case = self.case(next, is_default)?;
            items.push(case.item)?;
            next = case.next;
        }
    }

    /// The cases of a `switch` in braces, behind the `{`, with the `}` that ends them.
    fn braced_cases(&self, at: usize) -> Result<Listed<Case<Stmt>>, Stop>
        requires { at ≤ length self.now.reader.tokens.now }
        ensures { AnswersEnclosed Braces self.now.reader at result }
    {
        let list = self.cases(at)?;
        let end = list.next;
        if !sees_after(self.reader.tokens, end, After::Brace) {
            return Err(drop_cases(list, Stop::Syntax(end)));
        }
        if self.reader.room == 1 {
            return Err(drop_cases(list, Stop::TooDeep(end)));
        }
        Ok(Listed {
            items: list.items,
            next: end + 1,
        })
    }

    /// The cases of a `switch` behind its colon, with the `endswitch;` that ends them.
    fn colon_cases(&self, at: usize) -> Result<Listed<Case<Stmt>>, Stop>
        requires { at ≤ length self.now.reader.tokens.now }
        ensures { AnswersEnclosed Colon self.now.reader at result }
    {
        let list = self.cases(at)?;
        let end = list.next;
        if !sees_after(self.reader.tokens, end, After::EndSwitch) {
            return Err(drop_cases(list, Stop::Syntax(end)));
        }
        if !sees(self.reader.tokens, end + 1, Fixed::Semicolon) {
            return Err(drop_cases(list, Stop::Syntax(end + 1)));
        }
        Ok(Listed {
            items: list.items,
            next: end + 1 + 1,
        })
    }

    /// Cases that are enclosed so, with what ends them.
    fn enclosed_cases(&self, at: usize, form: SwitchForm) -> Result<Listed<Case<Stmt>>, Stop>
        requires { at ≤ length self.now.reader.tokens.now }
        ensures { AnswersEnclosed form self.now.reader at result }
    {
        match form {
            SwitchForm::Braces => self.braced_cases(at),
            SwitchForm::Colon => self.colon_cases(at),
        }
    }

    /// `switch (..) ..`
    pub(crate) fn switch(&self, at: usize) -> Result<ReadStatement, Stop>
        requires { Shows statement_beginning self.now.reader.tokens.now at at_switch }
        ensures { AnswersForm self.now.reader at result }
    {
        let head = test(&self.reader, at + 1)?;
        let Some(form) = cases_form(self.reader.tokens, head.next) else {
            return Err(Stop::Syntax(head.next));
        };
        let list = self.enclosed_cases(head.next + 1, form)?;
        Ok(ReadStatement {
            next: list.next,
            statement: switch_statement(spot(self.reader.tokens, at), head.item, form, list.items),
        })
    }
}
