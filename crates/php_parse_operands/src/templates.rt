// Texts with parts.

ghost use Rattle.std.specs.Prelude.{◌≡◌, ◌≤◌, ◌<◌, ◌+◌, ◌-◌, ℕ, length, true, false};
ghost use Rattle.php_grammar.specs.expression.Role as role;
ghost use Rattle.php_grammar.specs.expression.Role.{beginning};
ghost use Rattle.php_parse_operands.specs.Answer.{AnswersLeaf};
ghost use Rattle.php_parse_operands.specs.ListAnswer.{AnswersPart, AnswersPieces};
ghost use Rattle.php_reader.specs.Seen.{Shows, is_opened, mold};

use crate::inner::ReadsInner;
use crate::parser::Parser;
use crate::read::{Read, Taken};
use php_ast::{Expr, Piece};
use php_build::build::template_expr;
use php_grammar::Closer;
use php_lex::Tokens;
use php_reader::limit::{LEAST_POWER, TOP};
use php_reader::look::{closed_by, mold_at, next_at, spot, text_at};
use php_reader::role::Mold;
use php_reader::{Entry, Listed, Stop};
use sqlite_items::Items;
use std::alloc::Global;

impl<'t, R: ReadsInner> Parser<'t, R> {
    /// A part, from its opening mark on.
    fn part(&self, at: usize) -> Result<Entry<Piece<Expr>>, Stop>
        requires here { Shows mold self.now.reader.tokens.now at is_opened }
        ensures { AnswersPart self.now.reader at result }
    {
        let Read {
            expr,
            edge: _,
            next,
            behind,
        } = self.deeper(at + 1, LEAST_POWER)?;
        if !closed_by(behind, Closer::EndPart) {
            return Err(Stop::Syntax(next));
        }
        Ok(Entry {
            item: Piece::Part(expr),
            next: next + 1,
        })
    }

    /// The pieces behind an opening quote, and the closing one.
    fn pieces(&self, at: usize) -> Result<Listed<Piece<Expr>>, Stop>
        requires within { at ≤ length self.now.reader.tokens.now }
        ensures { AnswersPieces self.now.reader at result }
    {
        let mut items = Items::new(self.reader.alloc);
        let mut next = at;
        loop {
            match mold_at(self.reader.tokens, next) {
                Mold::Bytes => {
                    items.push(Piece::Bytes(text_at(
                        self.reader.alloc,
                        self.reader.tokens,
                        next,
                    )?))?;
                    next += 1;
                }
                Mold::Opened => {
                    let part = self.part(next)?;
                    items.push(part.item)?;
                    next = part.next;
                }
                Mold::Over => {
                    return Ok(Listed {
                        items,
                        next: next + 1,
                    });
                }
                Mold::Other => return Err(Stop::Syntax(next)),
            }
        }
    }

    /// A text with parts.
    pub(crate) fn template(&self, at: usize) -> Result<Taken, Stop>
        requires here { Shows beginning self.now.reader.tokens.now at role.at_template }
        ensures { AnswersLeaf self.now.reader at result }
    {
        let pieces = self.pieces(at + 1)?;
        Ok(Taken {
            next: pieces.next,
            behind: next_at(self.reader.tokens, pieces.next),
            expr: template_expr(spot(self.reader.tokens, at), pieces.items),
            edge: TOP,
        })
    }
}
