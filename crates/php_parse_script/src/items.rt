// What stands at the outermost level of a script.

ghost use Rattle.std.specs.Prelude.{◌≡◌, ◌≤◌, length};
ghost use Rattle.php_grammar.specs.declaration.ScriptMachine.{at_function, at_interface, at_statement, at_trait, item_role};
ghost use Rattle.php_token.specs.Token.{token_at};
ghost use Rattle.php_ast.specs.Symbol.{symbol};
ghost use Rattle.php_reader.specs.Seen.{Shows, Stands};
ghost use Rattle.php_parse_script.specs.Look.{BeginsClass};
ghost use Rattle.php_parse_script.specs.Answer.{AnswersBraced, AnswersItem};

use crate::build::{class_item, function_item, interface_item, statement_item, trait_item};
use crate::headings::{class_heading, interface_heading};
use crate::look::{item_at, sees_members};
use crate::names::name;
use crate::read::ReadItem;
use crate::role::ItemKind;
use php_parse_member::{ReadMembers, read_function, read_members};
use php_parse_statement::read_statement;
use php_reader::look::spot;
use php_reader::{Reader, Stop};

/// Members in braces.
fn members(reader: &Reader, at: usize) -> Result<ReadMembers, Stop>
    requires within { at ≤ length reader.now.tokens.now }
    requires deep { 2 ≤ reader.now.room }
    ensures { AnswersBraced reader.entry.now at result }
{
    if !sees_members(reader.tokens, at) {
        return Err(Stop::Syntax(at));
    }
    read_members(reader, at + 1)
}

/// A statement.
fn statement(reader: &Reader, at: usize) -> Result<ReadItem, Stop>
    requires here { Shows item_role reader.now.tokens.now at at_statement }
    requires deep { 2 ≤ reader.now.room }
    ensures { AnswersItem reader.entry.now at result }
{
    let read = read_statement(reader, at)?;
    Ok(ReadItem {
        item: statement_item(read.statement),
        next: read.next,
    })
}

/// A function.
fn function(reader: &Reader, at: usize) -> Result<ReadItem, Stop>
    requires here { Shows item_role reader.now.tokens.now at at_function }
    requires deep { 2 ≤ reader.now.room }
    ensures { AnswersItem reader.entry.now at result }
{
    let read = read_function(reader, at)?;
    Ok(ReadItem {
        item: function_item(read.function),
        next: read.next,
    })
}

/// A class.
fn class(reader: &Reader, at: usize) -> Result<ReadItem, Stop>
    requires here { BeginsClass reader.now.tokens.now at }
    requires deep { 2 ≤ reader.now.room }
    ensures { AnswersItem reader.entry.now at result }
{
    let heading = class_heading(reader, at)?;
    let read = members(reader, heading.next)?;
    Ok(ReadItem {
        item: class_item(heading, read.members),
        next: read.next,
    })
}

/// An interface.
fn interface(reader: &Reader, at: usize) -> Result<ReadItem, Stop>
    requires here { Shows item_role reader.now.tokens.now at at_interface }
    requires deep { 2 ≤ reader.now.room }
    ensures { AnswersItem reader.entry.now at result }
{
    let heading = interface_heading(reader, at)?;
    let read = members(reader, heading.next)?;
    Ok(ReadItem {
        item: interface_item(heading, read.members),
        next: read.next,
    })
}

/// A trait.
fn trait_declaration(reader: &Reader, at: usize) -> Result<ReadItem, Stop>
    requires here { Shows item_role reader.now.tokens.now at at_trait }
    requires deep { 2 ≤ reader.now.room }
    ensures { AnswersItem reader.entry.now at result }
{
    let place = at + 1;
    let name = name(reader, place)?;
    let read = members(reader, place + 1)?;
    Ok(ReadItem {
        item: trait_item(spot(reader.tokens, at), name, read.members),
        next: read.next,
    })
}

/// What begins at a place.
pub(crate) fn item(reader: &Reader, at: usize) -> Result<ReadItem, Stop>
    requires here { Stands reader.now.tokens.now at (symbol (token_at reader.now.tokens.now at)) }
    requires deep { 2 ≤ reader.now.room }
    ensures { AnswersItem reader.entry.now at result }
{
    match item_at(reader.tokens, at) {
        ItemKind::Function => function(reader, at),
        ItemKind::Class | ItemKind::ClassWord(_) => class(reader, at),
        ItemKind::Interface => interface(reader, at),
        ItemKind::Trait => trait_declaration(reader, at),
        ItemKind::Statement => statement(reader, at),
    }
}
