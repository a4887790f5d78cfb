// `new` and its class.

ghost use Rattle.std.specs.Prelude.{◌≡◌, ◌≤◌, ◌<◌, ◌+◌, ◌-◌, ℕ, List, length, true, false, Some};
ghost use Rattle.php_ast.specs.expression.Tree.{thin, class_found, from};
ghost use Rattle.php_grammar.specs.expression.Role as role;
ghost use Rattle.php_grammar.specs.expression.Role.{beginning, continuation, draws};
ghost use Rattle.php_token.specs.Token.{Token, token_at};
ghost use Rattle.php_parse_operands.specs.Answer.{AnswersLeaf};
ghost use Rattle.php_parse_operands.specs.ListAnswer.{AnswersClass, AnswersStep, SeesArguments, SeesStep};
ghost use Rattle.php_reader.specs.Seen.{Follows, SeesClass, Shows, named_class};
ghost use Rattle.php_reader.specs.RoleView.{next_view};

use crate::inner::ReadsInner;
use crate::parser::Parser;
use crate::read::{Element, Read, Taken};
use php_ast::{Class, ClassStep, Expr};
use php_build::build::{new_expr, new_with_expr};
use php_grammar::Closer;
use php_lex::Tokens;
use php_reader::limit::{LEAST_POWER, OPEN_NEW};
use php_reader::look::{class_at, closed_by, name_at, next_at, spot, word_at};
use php_reader::role::{ClassKind, Next, Tail};
use php_reader::{Entry, Stop};
use sqlite_items::Items;
use std::alloc::Global;

/// What a step to the name of a class begins with.
#[derive(Clone, Copy)]
pub(crate) enum StepKind {
    /// `->`
    Property,
    /// `[`
    Index,
}

/// The step that begins with a token which does this.
fn step_of(behind: Next) -> Option<StepKind>
    ensures { (tokens : List Token) (at : ℕ) → Follows tokens at (next_view behind) → SeesStep tokens at result }
{
    match behind {
        Next::Suffix(Tail::Property) => Some(StepKind::Property),
        Next::Suffix(Tail::Index) => Some(StepKind::Index),
        _ => None,
    }
}

/// Whether arguments begin with a token that does this.
pub(crate) fn opens_arguments(behind: Next) -> bool
    ensures { (tokens : List Token) (at : ℕ) → Follows tokens at (next_view behind) → SeesArguments tokens at result }
{
    matches!(behind, Next::Suffix(Tail::Call))
}

impl<'t, R: ReadsInner> Parser<'t, R> {
    /// `-> name`, a step to the name of a class.
    fn property_step(&self, at: usize) -> Result<Entry<ClassStep<Expr>>, Stop>
        requires here { Shows continuation self.now.reader.tokens.now at (draws (role.by_select thin)) }
        ensures { AnswersStep self.now.reader at result }
    {
        let place = at + 1;
        let Some(word) = word_at(self.reader.alloc, self.reader.tokens, place)? else {
            return Err(Stop::Syntax(place));
        };
        Ok(Entry {
            item: ClassStep::Property(word),
            next: place + 1,
        })
    }

    /// `[key]`, a step to the name of a class.
    fn index_step(&self, at: usize) -> Result<Entry<ClassStep<Expr>>, Stop>
        requires here { Shows continuation self.now.reader.tokens.now at (draws role.by_index) }
        ensures { AnswersStep self.now.reader at result }
    {
        let Read {
            expr,
            edge: _,
            next,
            behind,
        } = self.deeper(at + 1, LEAST_POWER)?;
        if !closed_by(behind, Closer::Bracket) {
            return Err(Stop::Syntax(next));
        }
        Ok(Entry {
            item: ClassStep::Index(expr),
            next: next + 1,
        })
    }

    /// A step to the name of a class.
    fn step(&self, at: usize, kind: StepKind) -> Result<Entry<ClassStep<Expr>>, Stop>
        requires here { SeesStep self.now.reader.tokens.now at (Some kind) }
        ensures { AnswersStep self.now.reader at result }
    {
        match kind {
            StepKind::Property => self.property_step(at),
            StepKind::Index => self.index_step(at),
        }
    }

    /// A variable and its steps to the name of a class.
    fn found_class(&self, at: usize) -> Result<Element<Class<Expr>>, Stop>
        requires here { Shows named_class self.now.reader.tokens.now at (Some (class_found (from tt (token_at self.now.reader.tokens.now at).text))) }
        ensures { AnswersClass self.now.reader at result }
    {
        let name = name_at(self.reader.alloc, self.reader.tokens, at)?;
        let mut steps = Items::new(self.reader.alloc);
        let mut next = at + 1;
        let mut behind = next_at(self.reader.tokens, next);
        while let Some(kind) = step_of(behind) {
            let step = self.step(next, kind)?;
            steps.push(step.item)?;
            next = step.next;
            behind = next_at(self.reader.tokens, next);
        }
        Ok(Element {
            item: Class::Variable(name, steps),
            next,
            behind,
        })
    }

    /// The class behind `new`.
    fn class(&self, at: usize) -> Result<Element<Class<Expr>>, Stop>
        requires within { at ≤ length self.now.reader.tokens.now }
        ensures { AnswersClass self.now.reader at result }
    {
        match class_at(self.reader.tokens, at) {
            None => Err(Stop::Syntax(at)),
            Some(ClassKind::Name) => Ok(Element {
                item: Class::Name(name_at(self.reader.alloc, self.reader.tokens, at)?),
                next: at + 1,
                behind: next_at(self.reader.tokens, at + 1),
            }),
            Some(ClassKind::Static) => Ok(Element {
                item: Class::Static(spot(self.reader.tokens, at)),
                next: at + 1,
                behind: next_at(self.reader.tokens, at + 1),
            }),
            Some(ClassKind::Variable) => self.found_class(at),
        }
    }

    /// `new`, its class, and its arguments or none.
    pub(crate) fn new_object(&self, at: usize) -> Result<Taken, Stop>
        requires here { Shows beginning self.now.reader.tokens.now at role.at_new }
        ensures { AnswersLeaf self.now.reader at result }
    {
        let class = self.class(at + 1)?;
        if !opens_arguments(class.behind) {
            return Ok(Taken {
                next: class.next,
                behind: class.behind,
                expr: new_expr(self.reader.alloc, spot(self.reader.tokens, at), class.item)?,
                edge: OPEN_NEW,
            });
        }
        let arguments = self.arguments(class.next + 1)?;
        Ok(Taken {
            next: arguments.next,
            behind: next_at(self.reader.tokens, arguments.next),
            expr: new_with_expr(
                self.reader.alloc,
                spot(self.reader.tokens, at),
                class.item,
                arguments.items,
            )?,
            edge: OPEN_NEW,
        })
    }
}
