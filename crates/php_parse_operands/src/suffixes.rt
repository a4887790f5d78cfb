// Suffixes of operands.

ghost use Rattle.std.specs.Prelude.{◌≡◌, ◌≤◌, ◌<◌, ◌+◌, ◌-◌, ℕ, List, length, true, false};
ghost use Rattle.php_token.specs.Token.{Token, token_at};
ghost use Rattle.php_ast.specs.expression.Proper.{ends};
ghost use Rattle.php_ast.specs.expression.Placed.{size};
ghost use Rattle.php_grammar.specs.expression.Role as role;
ghost use Rattle.php_grammar.specs.expression.Role.{beginning, continuation, draws, draw_strength, is_left_brace};
ghost use Rattle.php_grammar.specs.expression.Machine.{Form};
ghost use Rattle.php_ast.specs.expression.Tree.{thin, colons};
ghost use Rattle.php_parse_operands.specs.Answer.{AnswersOperand, AnswersSuffix, SeesTail};
ghost use Rattle.php_reader.specs.declared.role.Opening.TheVariants.{Static};
ghost use Rattle.php_reader.specs.Seen.{Follows, Shows, test, rest};
ghost use Rattle.php_reader.specs.RoleView.{next_view, opening_view, tail_view};

use crate::inner::ReadsInner;
use crate::parser::Parser;
use crate::read::{Followed, Operand, Read, Taken};
use php_ast::{Named, Suffix};
use php_build::build::{chain_expr, property_suffix};
use php_build::parts::is_call_suffix;
use php_grammar::Closer;
use php_lex::Tokens;
use php_reader::Stop;
use php_reader::limit::{LEAST_POWER, TOP};
use php_reader::look::{closed_by, due_at, ended_by, member_at, next_at, sees_left_brace};
use php_reader::role::{Next, Opening, Tail, tail_strength};
use sqlite_items::Items;
use std::alloc::Global;

/// The suffix that begins with a token which does this, behind an operand that is open to what draws less than `edge`.
fn suffix_of(behind: Next, edge: u8) -> Option<Tail>
    ensures { (tokens : List Token) (at : ℕ) → Follows tokens at (next_view behind) → SeesTail tokens at edge result }
{
    let Next::Suffix(tail) = behind else {
        return None;
    };
    if edge <= tail_strength(tail) {
        return None;
    }
    Some(tail)
}

impl<'t, R: ReadsInner> Parser<'t, R> {
    /// `:: name`
    fn member(&self, at: usize) -> Result<Followed, Stop>
        requires here { Shows continuation self.now.reader.tokens.now at (draws (role.by_select colons)) }
        ensures { (f : Form) (start : ℕ) → start + size f ≡ at → draw_strength role.by_index < ends f → AnswersSuffix self.now.reader f start at result }
    {
        let place = at + 1;
        let Some(member) = member_at(self.reader.alloc, self.reader.tokens, place)? else {
            return Err(Stop::Syntax(place));
        };
        Ok(Followed {
            suffix: Suffix::Member(member),
            is_call: false,
            next: place + 1,
        })
    }

    /// `-> name`
    fn property(&self, at: usize) -> Result<Followed, Stop>
        requires here { Shows continuation self.now.reader.tokens.now at (draws (role.by_select thin)) }
        requires no_brace { test is_left_brace (rest self.now.reader.tokens.now (at + 1)) ≡ false }
        ensures { (f : Form) (start : ℕ) → start + size f ≡ at → draw_strength role.by_index < ends f → AnswersSuffix self.now.reader f start at result }
    {
        let place = at + 1;
        let Some(member) = member_at(self.reader.alloc, self.reader.tokens, place)? else {
            return Err(Stop::Syntax(place));
        };
        Ok(Followed {
            suffix: property_suffix(member),
            is_call: false,
            next: place + 1,
        })
    }

    /// `[]` and `[key]`
    fn index(&self, at: usize) -> Result<Followed, Stop>
        requires here { Shows continuation self.now.reader.tokens.now at (draws role.by_index) }
        ensures { (f : Form) (start : ℕ) → start + size f ≡ at → draw_strength role.by_index < ends f → AnswersSuffix self.now.reader f start at result }
    {
        let inside = at + 1;
        let due = due_at(self.reader.tokens, inside);
        if ended_by(due.mark, Closer::Bracket) {
            if self.reader.room == 1 {
                return Err(Stop::TooDeep(inside));
            }
            return Ok(Followed {
                suffix: Suffix::Append,
                is_call: false,
                next: inside + 1,
            });
        }
        let Read {
            expr,
            edge: _,
            next,
            behind,
        } = self.deeper_begun(inside, due.start, LEAST_POWER)?;
        if !closed_by(behind, Closer::Bracket) {
            return Err(Stop::Syntax(next));
        }
        Ok(Followed {
            suffix: Suffix::Index(expr),
            is_call: false,
            next: next + 1,
        })
    }

    /// `-> {name}`
    fn computed(&self, at: usize) -> Result<Followed, Stop>
        requires here { Shows continuation self.now.reader.tokens.now at (draws (role.by_select thin)) }
        requires brace { Shows is_left_brace self.now.reader.tokens.now (at + 1) true }
        ensures { (f : Form) (start : ℕ) → start + size f ≡ at → draw_strength role.by_index < ends f → AnswersSuffix self.now.reader f start at result }
    {
        let brace = at + 1;
        let Read {
            expr,
            edge: _,
            next,
            behind,
        } = self.deeper(brace + 1, LEAST_POWER)?;
        if !closed_by(behind, Closer::Brace) {
            return Err(Stop::Syntax(next));
        }
        Ok(Followed {
            suffix: Suffix::Property(Named::Computed(expr)),
            is_call: false,
            next: next + 1,
        })
    }

    /// `(arguments)`
    fn call(&self, at: usize) -> Result<Followed, Stop>
        requires here { Shows continuation self.now.reader.tokens.now at (draws role.by_call) }
        ensures { (f : Form) (start : ℕ) → start + size f ≡ at → draw_strength role.by_call < ends f → AnswersSuffix self.now.reader f start at result }
    {
        let arguments = self.arguments(at + 1)?;
        let suffix = Suffix::Call(arguments.items);
        Ok(Followed {
            next: arguments.next,
            is_call: is_call_suffix(&suffix),
            suffix,
        })
    }

    /// `->` and what follows it.
    fn selection(&self, at: usize) -> Result<Followed, Stop>
        requires here { Shows continuation self.now.reader.tokens.now at (draws (role.by_select thin)) }
        ensures { (f : Form) (start : ℕ) → start + size f ≡ at → draw_strength role.by_index < ends f → AnswersSuffix self.now.reader f start at result }
    {
        if sees_left_brace(self.reader.tokens, at + 1) {
            return self.computed(at);
        }
        self.property(at)
    }

    /// The suffix that begins as `first` says.
    fn suffix(&self, at: usize, first: Tail) -> Result<Followed, Stop>
        requires here { Shows continuation self.now.reader.tokens.now at (draws (tail_view first)) }
        ensures { (f : Form) (start : ℕ) → start + size f ≡ at → draw_strength (tail_view first) < ends f → AnswersSuffix self.now.reader f start at result }
    {
        match first {
            Tail::Call => self.call(at),
            Tail::Index => self.index(at),
            Tail::Property => self.selection(at),
            Tail::Member => self.member(at),
        }
    }

    /// An operand with the suffixes behind it.
    pub fn operand(&self, at: usize, opening: Opening) -> Result<Operand, Stop>
        requires here { Shows beginning self.now.reader.tokens.now at (opening_view opening (token_at self.now.reader.tokens.now at).text) }
        requires colons { opening ≡ Static → Shows continuation self.now.reader.tokens.now (at + 1) (draws (role.by_select colons)) }
        ensures { AnswersOperand self.now.reader at result }
    {
        let Taken {
            expr: first,
            mut edge,
            mut next,
            mut behind,
        } = self.leaf(at, opening)?;
        let mut suffixes = Items::new(self.reader.alloc);
        let mut is_call = false;
        while let Some(tail) = suffix_of(behind, edge) {
            let found = self.suffix(next, tail)?;
            suffixes.push(found.suffix)?;
            edge = TOP;
            is_call = found.is_call;
            next = found.next;
            behind = next_at(self.reader.tokens, next);
        }
        Ok(Operand {
            expr: chain_expr(self.reader.alloc, first, suffixes)?,
            edge,
            is_call,
            next,
            behind,
        })
    }
}
