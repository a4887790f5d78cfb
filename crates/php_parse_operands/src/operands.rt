// Operands without their suffixes.

ghost use Rattle.std.specs.Prelude.{◌≡◌, ◌≤◌, ◌<◌, ◌+◌, ◌-◌, ℕ, length, true, false, IfOk};
ghost use Rattle.php_token.specs.Token.{token_at};
ghost use Rattle.php_ast.specs.expression.Tree as tree;
ghost use Rattle.php_grammar.specs.expression.Role as role;
ghost use Rattle.php_grammar.specs.expression.Role.{beginning, continuation};
ghost use Rattle.php_ast.specs.expression.View.{view};
ghost use Rattle.php_ast.specs.expression.Placed.{notes_of};
ghost use Rattle.php_parse_operands.specs.Answer.{AnswersLeaf};
ghost use Rattle.php_build.specs.Flat.{is_flat_leaf};
ghost use Rattle.php_reader.specs.Seen.{Shows};
ghost use Rattle.php_reader.specs.RoleView.{leaf_view, opening_view};
ghost use Rattle.php_reader.specs.declared.role.Opening.TheVariants.{Static};

use crate::classes::opens_arguments;
use crate::inner::ReadsInner;
use crate::parser::Parser;
use crate::read::{Read, Taken};
use php_ast::Expr;
use php_base::NoMemory;
use php_build::build::{
    empty_expr, exit_empty_expr, exit_expr, exit_with_expr, group_expr, static_member_expr,
};
use php_grammar::Closer;
use php_lex::Tokens;
use php_reader::Stop;
use php_reader::limit::{LEAST_POWER, OPEN_EXIT, TOP};
use php_reader::look::{
    closed_by, due_at, ended_by, member_at, name_at, next_at, sees_paren, spot, text_at,
};
use php_reader::role::{LeafKind, Opening};
use std::alloc::Global;

/// An operand of one token.
fn leaf_expr(alloc: Global, tokens: &Tokens, at: usize, kind: LeafKind) -> Result<Expr, NoMemory>
    requires { at < length tokens.now }
    ensures shown { IfOk result (λ e. view e ≡ tree.leaf ((notes_of tokens.now).token at) (leaf_view kind (token_at tokens.now at).text)) }
    ensures flat { IfOk result (λ e. is_flat_leaf e ≡ true) }
{
    match kind {
        LeafKind::Variable => Ok(Expr::Variable(name_at(alloc, tokens, at)?)),
        LeafKind::Int(value) => Ok(Expr::Int(spot(tokens, at), value)),
        LeafKind::Str => Ok(Expr::Str(spot(tokens, at), text_at(alloc, tokens, at)?)),
        LeafKind::Name => Ok(Expr::Name(name_at(alloc, tokens, at)?)),
        LeafKind::Magic(constant) => Ok(Expr::Magic(spot(tokens, at), constant)),
    }
}

impl<'t, R: ReadsInner> Parser<'t, R> {
    fn single(&self, at: usize, kind: LeafKind) -> Result<Taken, Stop>
        requires here { Shows beginning self.now.reader.tokens.now at (role.at_leaf (leaf_view kind (token_at self.now.reader.tokens.now at).text)) }
        ensures { AnswersLeaf self.now.reader at result }
    {
        Ok(Taken {
            expr: leaf_expr(self.reader.alloc, self.reader.tokens, at, kind)?,
            edge: TOP,
            next: at + 1,
            behind: next_at(self.reader.tokens, at + 1),
        })
    }

    /// `static :: name`
    fn static_member(&self, at: usize) -> Result<Taken, Stop>
        requires here { Shows beginning self.now.reader.tokens.now at role.at_static }
        requires colons { Shows continuation self.now.reader.tokens.now (at + 1) (role.draws (role.by_select tree.colons)) }
        ensures { AnswersLeaf self.now.reader at result }
    {
        let colons = at + 1;
        let Some(member) = member_at(self.reader.alloc, self.reader.tokens, colons + 1)? else {
            return Err(Stop::Syntax(colons + 1));
        };
        Ok(Taken {
            expr: static_member_expr(self.reader.alloc, spot(self.reader.tokens, at), member)?,
            edge: TOP,
            next: colons + 1 + 1,
            behind: next_at(self.reader.tokens, colons + 1 + 1),
        })
    }

    /// `(..)`
    fn group(&self, at: usize) -> Result<Taken, Stop>
        requires here { Shows beginning self.now.reader.tokens.now at (role.at_enclosed tree.parentheses) }
        ensures { AnswersLeaf self.now.reader at result }
    {
        let inside = self.deeper(at + 1, LEAST_POWER)?;
        if !closed_by(inside.behind, Closer::Paren) {
            return Err(Stop::Syntax(inside.next));
        }
        Ok(Taken {
            next: inside.next + 1,
            behind: next_at(self.reader.tokens, inside.next + 1),
            expr: group_expr(self.reader.alloc, spot(self.reader.tokens, at), inside.expr)?,
            edge: TOP,
        })
    }

    /// `empty(..)`
    fn empty(&self, at: usize) -> Result<Taken, Stop>
        requires here { Shows beginning self.now.reader.tokens.now at (role.at_enclosed tree.emptiness) }
        ensures { AnswersLeaf self.now.reader at result }
    {
        let paren = at + 1;
        if !sees_paren(self.reader.tokens, paren) {
            return Err(Stop::Syntax(paren));
        }
        let inside = self.deeper(paren + 1, LEAST_POWER)?;
        if !closed_by(inside.behind, Closer::Paren) {
            return Err(Stop::Syntax(inside.next));
        }
        Ok(Taken {
            next: inside.next + 1,
            behind: next_at(self.reader.tokens, inside.next + 1),
            expr: empty_expr(self.reader.alloc, spot(self.reader.tokens, at), inside.expr)?,
            edge: TOP,
        })
    }

    /// `exit`, `exit()` and `exit(..)`
    fn exit(&self, at: usize) -> Result<Taken, Stop>
        requires here { Shows beginning self.now.reader.tokens.now at role.at_exit }
        ensures { AnswersLeaf self.now.reader at result }
    {
        let paren = at + 1;
        let behind = next_at(self.reader.tokens, paren);
        if !opens_arguments(behind) {
            return Ok(Taken {
                expr: exit_expr(spot(self.reader.tokens, at)),
                edge: OPEN_EXIT,
                next: paren,
                behind,
            });
        }
        let due = due_at(self.reader.tokens, paren + 1);
        if ended_by(due.mark, Closer::Paren) {
            if self.reader.room == 1 {
                return Err(Stop::TooDeep(paren + 1));
            }
            return Ok(Taken {
                expr: exit_empty_expr(spot(self.reader.tokens, at)),
                edge: TOP,
                next: paren + 1 + 1,
                behind: next_at(self.reader.tokens, paren + 1 + 1),
            });
        }
        let inside = self.deeper_begun(paren + 1, due.start, LEAST_POWER)?;
        if !closed_by(inside.behind, Closer::Paren) {
            return Err(Stop::Syntax(inside.next));
        }
        Ok(Taken {
            next: inside.next + 1,
            behind: next_at(self.reader.tokens, inside.next + 1),
            expr: exit_with_expr(self.reader.alloc, spot(self.reader.tokens, at), inside.expr)?,
            edge: TOP,
        })
    }

    /// An operand without suffixes, which begins as `opening` says.
    pub(crate) fn leaf(&self, at: usize, opening: Opening) -> Result<Taken, Stop>
        requires here { Shows beginning self.now.reader.tokens.now at (opening_view opening (token_at self.now.reader.tokens.now at).text) }
        requires colons { opening ≡ Static → Shows continuation self.now.reader.tokens.now (at + 1) (role.draws (role.by_select tree.colons)) }
        ensures { AnswersLeaf self.now.reader at result }
    {
        match opening {
            Opening::Leaf(kind) => self.single(at, kind),
            Opening::Static => self.static_member(at),
            Opening::Quote => self.template(at),
            Opening::Exit => self.exit(at),
            Opening::New => self.new_object(at),
            Opening::Group => self.group(at),
            Opening::Empty => self.empty(at),
            Opening::Array(form) => self.array(at, form),
            Opening::IsSet => self.is_set(at),
        }
    }
}
