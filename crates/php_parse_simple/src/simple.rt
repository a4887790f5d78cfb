// Statements that hold no other statement.

ghost use Rattle.std.specs.Prelude.{◌≤◌, length};
ghost use Rattle.php_token.specs.Token.{token_at};
ghost use Rattle.php_grammar.specs.statement.Depth.{statement_depth};
ghost use Rattle.php_grammar.specs.statement.Role.{at_blank, at_echo, at_inline, at_jump, at_throw, at_unset, statement_beginning};
ghost use Rattle.php_reader.specs.Seen.{Shows};
ghost use Rattle.php_parse_simple.specs.Answer.{AnswersForm, FoundStatement, IsLine};
ghost use Rattle.php_parse_simple.specs.RoleView.{jump_view};

use crate::build::{
    blank_statement, echo_statement, inline_statement, jump_statement, line_statement,
    throw_statement, unset_statement,
};
use crate::expression::expression;
use crate::look::{ends, sees};
use crate::read::{ReadStatement, discard, unclosed};
use crate::role::{Fixed, JumpKind};
use crate::values::values;
use php_grammar::Closer;
use php_reader::look::{spot, text_at};
use php_reader::{Reader, Stop};

/// `;`
pub fn blank(reader: &Reader, at: usize) -> ReadStatement
    requires some { 1 ≤ reader.now.room }
    requires here { Shows statement_beginning reader.now.tokens.now at at_blank }
    ensures { FoundStatement statement_depth reader.now.room reader.now.tokens.now at result }
{
    ReadStatement {
        statement: blank_statement(spot(reader.tokens, at)),
        next: at + 1,
    }
}

/// Bytes outside the tags.
pub fn inline(reader: &Reader, at: usize) -> Result<ReadStatement, Stop>
    requires some { 1 ≤ reader.now.room }
    requires here { Shows statement_beginning reader.now.tokens.now at (at_inline (token_at reader.now.tokens.now at).text) }
    ensures { AnswersForm reader.entry.now at result }
{
    let text = text_at(reader.alloc, reader.tokens, at)?;
    Ok(ReadStatement {
        statement: inline_statement(spot(reader.tokens, at), text),
        next: at + 1,
    })
}

/// An expression and `;`
pub fn line(reader: &Reader, at: usize) -> Result<ReadStatement, Stop>
    requires within { at ≤ length reader.now.tokens.now }
    requires due { IsLine reader.now at }
    ensures { AnswersForm reader.entry.now at result }
{
    let read = expression(reader, at)?;
    if !ends(reader.tokens, read.next, Closer::Semicolon) {
        return Err(unclosed(read));
    }
    Ok(ReadStatement {
        next: read.next + 1,
        statement: line_statement(spot(reader.tokens, at), read.expr),
    })
}

/// `echo ..;`
pub fn echo(reader: &Reader, at: usize) -> Result<ReadStatement, Stop>
    requires some { 1 ≤ reader.now.room }
    requires here { Shows statement_beginning reader.now.tokens.now at at_echo }
    ensures { AnswersForm reader.entry.now at result }
{
    let values = values(reader, at + 1)?;
    if !ends(reader.tokens, values.next, Closer::Semicolon) {
        return Err(discard(values.items, Stop::Syntax(values.next)));
    }
    Ok(ReadStatement {
        next: values.next + 1,
        statement: echo_statement(spot(reader.tokens, at), values.items),
    })
}

/// `unset(..);`
pub fn unset(reader: &Reader, at: usize) -> Result<ReadStatement, Stop>
    requires some { 1 ≤ reader.now.room }
    requires here { Shows statement_beginning reader.now.tokens.now at at_unset }
    ensures { AnswersForm reader.entry.now at result }
{
    let paren = at + 1;
    if !sees(reader.tokens, paren, Fixed::LeftParen) {
        return Err(Stop::Syntax(paren));
    }
    let inside = Reader {
        room: reader.room - 1,
        alloc: reader.alloc,
        tokens: reader.tokens,
    };
    let places = values(&inside, paren + 1)?;
    if !ends(reader.tokens, places.next, Closer::Paren) {
        return Err(discard(places.items, Stop::Syntax(places.next)));
    }
    let end = places.next + 1;
    if !sees(reader.tokens, end, Fixed::Semicolon) {
        return Err(discard(places.items, Stop::Syntax(end)));
    }
    Ok(ReadStatement {
        statement: unset_statement(spot(reader.tokens, at), places.items),
        next: end + 1,
    })
}

/// `return`, `break` or `continue`, with a value or none.
pub fn jump(reader: &Reader, at: usize, kind: JumpKind) -> Result<ReadStatement, Stop>
    requires some { 1 ≤ reader.now.room }
    requires here { Shows statement_beginning reader.now.tokens.now at (at_jump (jump_view kind)) }
    ensures { AnswersForm reader.entry.now at result }
{
    let behind = at + 1;
    if sees(reader.tokens, behind, Fixed::Semicolon) {
        return Ok(ReadStatement {
            statement: jump_statement(spot(reader.tokens, at), kind, None),
            next: behind + 1,
        });
    }
    let read = expression(reader, behind)?;
    if !ends(reader.tokens, read.next, Closer::Semicolon) {
        return Err(unclosed(read));
    }
    Ok(ReadStatement {
        next: read.next + 1,
        statement: jump_statement(spot(reader.tokens, at), kind, Some(read.expr)),
    })
}

/// `throw ..;`
pub fn throw(reader: &Reader, at: usize) -> Result<ReadStatement, Stop>
    requires some { 1 ≤ reader.now.room }
    requires here { Shows statement_beginning reader.now.tokens.now at at_throw }
    ensures { AnswersForm reader.entry.now at result }
{
    let read = expression(reader, at + 1)?;
    if !ends(reader.tokens, read.next, Closer::Semicolon) {
        return Err(unclosed(read));
    }
    Ok(ReadStatement {
        next: read.next + 1,
        statement: throw_statement(spot(reader.tokens, at), read.expr),
    })
}
