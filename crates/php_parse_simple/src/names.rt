// Statements of names: `global`, `static`, `const` and `declare`.

ghost use Rattle.std.specs.Prelude.{◌≡◌, ◌≤◌, ◌+◌, true, length};
ghost use Rattle.php_grammar.specs.statement.Role.{at_constants, at_declare, at_globals, at_statics, statement_beginning};
ghost use Rattle.php_reader.specs.Seen.{Shows};
ghost use Rattle.php_parse_simple.specs.Answer.{AnswersForm};
ghost use Rattle.php_parse_simple.specs.RoleView.{is_variable_symbol};
ghost use Rattle.php_parse_simple.specs.NameAnswer.{AnswersConstant, AnswersVariable};

use crate::build::{constants_statement, declare_statement, globals_statement, statics_statement};
use crate::expression::expression;
use crate::look::{bare_name_at, ends, int_at, sees, sees_variable, variable_at};
use crate::read::ReadStatement;
use crate::role::Fixed;
use crate::simple::line;
use php_ast::{ConstantItem, VariableItem};
use php_grammar::Closer;
use php_reader::look::spot;
use php_reader::{Entry, Reader, Stop};
use sqlite_items::Items;

/// `global ..;`
pub fn globals(reader: &Reader, at: usize) -> Result<ReadStatement, Stop>
    requires some { 1 ≤ reader.now.room }
    requires here { Shows statement_beginning reader.now.tokens.now at at_globals }
    ensures { AnswersForm reader.entry.now at result }
{
    let mut names = Items::new(reader.alloc);
    let mut next = at + 1;
    loop {
        let Some(name) = variable_at(reader.alloc, reader.tokens, next)? else {
            return Err(Stop::Syntax(next));
        };
        names.push(name)?;
        let behind = next + 1;
        if ends(reader.tokens, behind, Closer::Semicolon) {
            return Ok(ReadStatement {
                statement: globals_statement(spot(reader.tokens, at), names),
                next: behind + 1,
            });
        }
        if !ends(reader.tokens, behind, Closer::Comma) {
            return Err(Stop::Syntax(behind));
        }
        next = behind + 1;
    }
}

/// A static variable, with a value or none.
fn static_variable(reader: &Reader, at: usize) -> Result<Entry<VariableItem>, Stop>
    requires within { at ≤ length reader.now.tokens.now }
    requires some { 1 ≤ reader.now.room }
    ensures { AnswersVariable reader.entry.now at result }
{
    let Some(name) = variable_at(reader.alloc, reader.tokens, at)? else {
        return Err(Stop::Syntax(at));
    };
    let behind = at + 1;
    if !sees(reader.tokens, behind, Fixed::Assign) {
        return Ok(Entry {
            item: VariableItem { name, value: None },
            next: behind,
        });
    }
    let read = expression(reader, behind + 1)?;
    Ok(Entry {
        next: read.next,
        item: VariableItem {
            name,
            value: Some(read.expr),
        },
    })
}

/// Static variables, from behind the word `static`.
fn static_variables(reader: &Reader, at: usize) -> Result<ReadStatement, Stop>
    requires some { 1 ≤ reader.now.room }
    requires here { Shows statement_beginning reader.now.tokens.now at at_statics }
    requires named { Shows is_variable_symbol reader.now.tokens.now (at + 1) true }
    ensures { AnswersForm reader.entry.now at result }
{
    let mut variables = Items::new(reader.alloc);
    let mut next = at + 1;
    loop {
        let entry = static_variable(reader, next)?;
        variables.push(entry.item)?;
        if ends(reader.tokens, entry.next, Closer::Semicolon) {
            return Ok(ReadStatement {
                statement: statics_statement(spot(reader.tokens, at), variables),
                next: entry.next + 1,
            });
        }
        if !ends(reader.tokens, entry.next, Closer::Comma) {
            return Err(Stop::Syntax(entry.next));
        }
        next = entry.next + 1;
    }
}

/// What begins with `static`: static variables, or an expression.
pub fn statics(reader: &Reader, at: usize) -> Result<ReadStatement, Stop>
    requires some { 1 ≤ reader.now.room }
    requires here { Shows statement_beginning reader.now.tokens.now at at_statics }
    ensures { AnswersForm reader.entry.now at result }
{
    if !sees_variable(reader.tokens, at + 1) {
        return line(reader, at);
    }
    static_variables(reader, at)
}

/// A constant and its value.
fn constant(reader: &Reader, at: usize) -> Result<Entry<ConstantItem>, Stop>
    requires within { at ≤ length reader.now.tokens.now }
    requires some { 1 ≤ reader.now.room }
    ensures { AnswersConstant reader.entry.now at result }
{
    let Some(name) = bare_name_at(reader.alloc, reader.tokens, at)? else {
        return Err(Stop::Syntax(at));
    };
    let behind = at + 1;
    if !sees(reader.tokens, behind, Fixed::Assign) {
        return Err(Stop::Syntax(behind));
    }
    let read = expression(reader, behind + 1)?;
    Ok(Entry {
        next: read.next,
        item: ConstantItem {
            name,
            value: read.expr,
        },
    })
}

/// `const ..;`
pub fn constants(reader: &Reader, at: usize) -> Result<ReadStatement, Stop>
    requires some { 1 ≤ reader.now.room }
    requires here { Shows statement_beginning reader.now.tokens.now at at_constants }
    ensures { AnswersForm reader.entry.now at result }
{
    let mut items = Items::new(reader.alloc);
    let mut next = at + 1;
    loop {
        let entry = constant(reader, next)?;
        items.push(entry.item)?;
        if ends(reader.tokens, entry.next, Closer::Semicolon) {
            return Ok(ReadStatement {
                statement: constants_statement(spot(reader.tokens, at), items),
                next: entry.next + 1,
            });
        }
        if !ends(reader.tokens, entry.next, Closer::Comma) {
            return Err(Stop::Syntax(entry.next));
        }
        next = entry.next + 1;
    }
}

/// `declare(name = int);`
pub fn declare(reader: &Reader, at: usize) -> Result<ReadStatement, Stop>
    requires some { 1 ≤ reader.now.room }
    requires here { Shows statement_beginning reader.now.tokens.now at at_declare }
    ensures { AnswersForm reader.entry.now at result }
{
    let paren = at + 1;
    if !sees(reader.tokens, paren, Fixed::LeftParen) {
        return Err(Stop::Syntax(paren));
    }
    let place = paren + 1;
    let Some(name) = bare_name_at(reader.alloc, reader.tokens, place)? else {
        return Err(Stop::Syntax(place));
    };
    if reader.room == 1 {
        return Err(Stop::TooDeep(place));
    }
    let assign = place + 1;
    if !sees(reader.tokens, assign, Fixed::Assign) {
        return Err(Stop::Syntax(assign));
    }
    let number = assign + 1;
    let Some(value) = int_at(reader.tokens, number) else {
        return Err(Stop::Syntax(number));
    };
    let close = number + 1;
    if !sees(reader.tokens, close, Fixed::RightParen) {
        return Err(Stop::Syntax(close));
    }
    let end = close + 1;
    if !sees(reader.tokens, end, Fixed::Semicolon) {
        return Err(Stop::Syntax(end));
    }
    Ok(ReadStatement {
        statement: declare_statement(spot(reader.tokens, at), name, value),
        next: end + 1,
    })
}
