// Traits that a class uses.

ghost use Rattle.std.specs.Prelude.{◌≤◌, ◌+◌, length, true};
ghost use Rattle.php_grammar.specs.expression.Role.{is_left_brace};
ghost use Rattle.php_grammar.specs.declaration.MemberMachine.{at_use, member_role};
ghost use Rattle.php_reader.specs.Seen.{Shows};
ghost use Rattle.php_parse_member.specs.Answer.{AnswersMember};
ghost use Rattle.php_parse_member.specs.RuleAnswer.{AnswersNoRules, FoundNames};

use crate::build::uses_member;
use crate::look::sees_right_brace;
use crate::names::names_at;
use crate::read::ReadMember;
use crate::rules::rules_at;
use php_ast::Name;
use php_grammar::Closer;
use php_parse_simple::look::{ends, sees};
use php_parse_simple::role::Fixed;
use php_reader::look::{spot, word_at};
use php_reader::{Listed, Reader, Stop};

/// Where no level of nesting is left in the braces of the rules, the first token there is nested too deep.
fn sunk(reader: &Reader, at: usize) -> Stop
    requires within { at ≤ length reader.now.tokens.now }
    ensures { AnswersNoRules reader.entry.now.tokens.now at result }
{
    if sees_right_brace(reader.tokens, at) {
        return Stop::TooDeep(at);
    }
    match word_at(reader.alloc, reader.tokens, at) {
        Ok(Some(_)) => Stop::TooDeep(at),
        Ok(None) => Stop::Syntax(at),
        Err(error) => error.into(),
    }
}

/// The rules of a `use` behind the `{`, with its traits.
fn with_rules(reader: &Reader, at: usize, traits: Listed<Name>) -> Result<ReadMember, Stop>
    requires deep { 1 ≤ reader.now.room }
    requires here { Shows member_role reader.now.tokens.now at at_use }
    requires traits { FoundNames reader.now.room reader.now.tokens.now (at + 1) traits }
    requires open { Shows is_left_brace reader.now.tokens.now traits.next true }
    ensures { AnswersMember reader.entry.now at result }
{
    let place = traits.next + 1;
    if reader.room == 1 {
        return Err(sunk(reader, place));
    }
    let rules = rules_at(reader, place)?;
    Ok(ReadMember {
        next: rules.next,
        member: uses_member(spot(reader.tokens, at), traits.items, Some(rules.rules)),
    })
}

/// `use ..;` and `use .. { .. }`, from the word on.
pub(crate) fn uses(reader: &Reader, at: usize) -> Result<ReadMember, Stop>
    requires deep { 1 ≤ reader.now.room }
    requires here { Shows member_role reader.now.tokens.now at at_use }
    ensures { AnswersMember reader.entry.now at result }
{
    let traits = names_at(reader, at + 1)?;
    if ends(reader.tokens, traits.next, Closer::Semicolon) {
        return Ok(ReadMember {
            next: traits.next + 1,
            member: uses_member(spot(reader.tokens, at), traits.items, None),
        });
    }
    if !sees(reader.tokens, traits.next, Fixed::LeftBrace) {
        return Err(Stop::Syntax(traits.next));
    }
    with_rules(reader, at, traits)
}
