// Members with their modifiers.

ghost use Rattle.std.specs.Prelude.{◌≤◌, ◌<◌, length};
ghost use Rattle.php_grammar.specs.declaration.MemberMachine.{at_class_constants, at_function, at_use, at_variable, member_role};
ghost use Rattle.php_reader.specs.Seen.{Shows};
ghost use Rattle.php_token.specs.Token.{token_at};
ghost use Rattle.php_parse_member.specs.Answer.{AnswersMember, IsNoModifier, ModifiersRead, ModifiersSoFar};
ghost use Rattle.php_parse_member.specs.LeadView.{SeesLead, lead_view};

use crate::build::{constants_member, method_member, properties_member};
use crate::constants::class_constants;
use crate::lead::Lead;
use crate::look::lead_at;
use crate::methods::method_at;
use crate::read::ReadMember;
use crate::traits::uses;
use crate::variables::properties;
use php_ast::{Method, Modifier};
use php_reader::look::spot;
use php_reader::{Reader, Stop};
use sqlite_items::Items;

/// Constants behind modifiers, which stand from `at` to `place`.
fn constants(
    reader: &Reader,
    at: usize,
    modifiers: Items<Modifier>,
    place: usize,
) -> Result<ReadMember, Stop>
    requires deep { 1 ≤ reader.now.room }
    requires behind { ModifiersSoFar reader.now.room reader.now.tokens.now at modifiers place }
    requires here { Shows member_role reader.now.tokens.now place at_class_constants }
    ensures { AnswersMember reader.entry.now at result }
{
    let read = class_constants(reader, place + 1)?;
    Ok(ReadMember {
        next: read.next,
        member: constants_member(modifiers, read.constants),
    })
}

/// A method behind modifiers, which stand from `at` to `place`.
fn method(
    reader: &Reader,
    at: usize,
    modifiers: Items<Modifier>,
    place: usize,
) -> Result<ReadMember, Stop>
    requires deep { 1 ≤ reader.now.room }
    requires behind { ModifiersSoFar reader.now.room reader.now.tokens.now at modifiers place }
    requires here { Shows member_role reader.now.tokens.now place at_function }
    ensures { AnswersMember reader.entry.now at result }
{
    let read = method_at(reader, place)?;
    Ok(ReadMember {
        next: read.next,
        member: method_member(Method {
            modifiers,
            spot: spot(reader.tokens, place),
            is_reference: read.is_reference,
            name: read.name,
            signature: read.signature,
            body: read.body,
        }),
    })
}

/// Properties behind modifiers, which stand from `at` to `place`, and of which there is one at least.
fn properties_behind(
    reader: &Reader,
    at: usize,
    modifiers: Items<Modifier>,
    place: usize,
) -> Result<ReadMember, Stop>
    requires deep { 1 ≤ reader.now.room }
    requires behind { ModifiersSoFar reader.now.room reader.now.tokens.now at modifiers place }
    requires some { at < place }
    requires here { Shows member_role reader.now.tokens.now place (at_variable (token_at reader.now.tokens.now place).text) }
    ensures { AnswersMember reader.entry.now at result }
{
    let read = properties(reader, place)?;
    Ok(ReadMember {
        next: read.next,
        member: properties_member(modifiers, read.properties),
    })
}

/// A `use` with nothing before it. Modifiers, which stand from `at` to `place`, may not.
fn use_behind(reader: &Reader, at: usize, place: usize) -> Result<ReadMember, Stop>
    requires deep { 1 ≤ reader.now.room }
    requires behind { ModifiersRead reader.now.room reader.now.tokens.now at place }
    requires here { Shows member_role reader.now.tokens.now place at_use }
    ensures { AnswersMember reader.entry.now at result }
{
    if at < place {
        return Err(Stop::Syntax(place));
    }
    uses(reader, at)
}

/// What stands behind modifiers, by the token there; they stand from `at` to `place`.
fn behind(
    reader: &Reader,
    at: usize,
    modifiers: Items<Modifier>,
    place: usize,
    lead: Lead,
) -> Result<ReadMember, Stop>
    requires deep { 1 ≤ reader.now.room }
    requires behind { ModifiersSoFar reader.now.room reader.now.tokens.now at modifiers place }
    requires here { SeesLead reader.now.tokens.now place (lead_view lead (token_at reader.now.tokens.now place).text) }
    requires last { IsNoModifier lead }
    ensures { AnswersMember reader.entry.now at result }
{
    match lead {
        Lead::Function => method(reader, at, modifiers, place),
        Lead::Constants => constants(reader, at, modifiers, place),
        Lead::Use => use_behind(reader, at, place),
        Lead::Variable => {
            if place <= at {
                return Err(Stop::Syntax(place));
            }
            properties_behind(reader, at, modifiers, place)
        }
        _ => Err(Stop::Syntax(place)),
    }
}

/// The member that begins at a place, with the levels of nesting that the reader has: as many tokens are read as begin one.
pub fn read_member(reader: &Reader, at: usize) -> Result<ReadMember, Stop>
    requires within { at ≤ length reader.now.tokens.now }
    requires deep { 1 ≤ reader.now.room }
    ensures { AnswersMember reader.entry.now at result }
{
    let mut modifiers = Items::new(reader.alloc);
    let mut next = at;
    loop {
        let lead = lead_at(reader.tokens, next);
        let Lead::Modifier(word) = lead else {
            return behind(reader, at, modifiers, next, lead);
        };
        modifiers.push(Modifier {
            spot: spot(reader.tokens, next),
            word,
        })?;
        next += 1;
    }
}
