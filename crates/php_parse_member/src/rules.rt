// Rules on the methods of used traits.

ghost use Rattle.std.specs.Prelude.{◌≡◌, ◌≤◌, ◌+◌, Some, None, false, length};
ghost use Rattle.php_ast.specs.expression.Tree as tree;
ghost use Rattle.php_ast.specs.expression.View.{spot_view, word_view};
ghost use Rattle.php_ast.specs.declaration.Placed.{size_one};
ghost use Rattle.php_grammar.specs.declaration.MemberMachine.{by_as, by_instead_of, rule_role};
ghost use Rattle.php_grammar.specs.statement.Role.{is_right_brace, name_text};
ghost use Rattle.php_reader.specs.Seen.{Shows, rest, test};
ghost use Rattle.php_parse_simple.specs.Answer.{ShowsName, head_text};
ghost use Rattle.php_parse_member.specs.LeadView.{SeesColons, VisibilityFits};
ghost use Rattle.php_parse_member.specs.RuleAnswer.{AnswersHead, AnswersRule, AnswersRules, AnswersTail, FoundHead};

use crate::lead::Verb;
use crate::look::{sees_right_brace, verb_at, visibility_at};
use crate::names::names_at;
use crate::read::{ReadRule, ReadRules, RuleHead, RuleTail};
use php_ast::{Name, Rule, Visibility, Word};
use php_grammar::Closer;
use php_lex::Tokens;
use php_parse_simple::look::{bare_name_at, ends, sees};
use php_parse_simple::role::Fixed;
use php_reader::look::{spot, word_at};
use php_reader::{Reader, Stop};
use sqlite_items::Items;

/// Whether `::` stands at a place.
fn sees_colons(tokens: &Tokens, at: usize) -> bool
    ensures { SeesColons tokens.now at result }
{
    match verb_at(tokens, at) {
        Verb::Colons => true,
        _ => false,
    }
}

/// A name as a word.
fn plain_word(name: Name) -> Word
    ensures { word_view result ≡ tree.named (spot_view name.spot) name.text }
{
    Word {
        spot: name.spot,
        text: name.text,
        keyword: None,
    }
}

/// The first words of a rule that begin with this name: a method, or a class, `::` and a method.
fn named_head(reader: &Reader, at: usize, name: Name) -> Result<RuleHead, Stop>
    requires named { ShowsName name_text reader.now.tokens.now at (Some name) }
    requires deep { 2 ≤ reader.now.room }
    ensures { AnswersHead reader.entry.now at result }
{
    let behind = at + 1;
    if !sees_colons(reader.tokens, behind) {
        return Ok(RuleHead {
            origin: None,
            word: plain_word(name),
            next: behind,
        });
    }
    let place = behind + 1;
    let Some(method) = word_at(reader.alloc, reader.tokens, place)? else {
        return Err(Stop::Syntax(place));
    };
    Ok(RuleHead {
        origin: Some(name),
        word: method,
        next: place + 1,
    })
}

/// The first word of a rule, which is no name: a keyword that names a method.
fn keyword_head(reader: &Reader, at: usize) -> Result<RuleHead, Stop>
    requires within { at ≤ length reader.now.tokens.now }
    requires deep { 2 ≤ reader.now.room }
    requires unnamed { head_text name_text (rest reader.now.tokens.now at) ≡ None }
    requires no_end { test is_right_brace (rest reader.now.tokens.now at) ≡ false }
    ensures { AnswersHead reader.entry.now at result }
{
    let Some(word) = word_at(reader.alloc, reader.tokens, at)? else {
        return Err(Stop::Syntax(at));
    };
    Ok(RuleHead {
        origin: None,
        word,
        next: at + 1,
    })
}

/// The first words of a rule.
fn rule_head(reader: &Reader, at: usize) -> Result<RuleHead, Stop>
    requires within { at ≤ length reader.now.tokens.now }
    requires deep { 2 ≤ reader.now.room }
    requires no_end { test is_right_brace (rest reader.now.tokens.now at) ≡ false }
    ensures { AnswersHead reader.entry.now at result }
{
    match bare_name_at(reader.alloc, reader.tokens, at)? {
        Some(name) => named_head(reader, at, name),
        None => keyword_head(reader, at),
    }
}

/// The place behind a visibility at a place, or the place itself where none stands there.
fn past_visibility(seen: Option<Visibility>, at: usize) -> usize
    requires { VisibilityFits seen at }
    ensures { result ≡ at + size_one seen }
{
    match seen {
        Some(_) => at + 1,
        None => at,
    }
}

/// What stands behind `as`: a visibility or none, and another name or none.
fn rule_tail(reader: &Reader, at: usize) -> Result<RuleTail, Stop>
    requires within { at ≤ length reader.now.tokens.now }
    requires deep { 2 ≤ reader.now.room }
    ensures { AnswersTail reader.entry.now at result }
{
    let seen = visibility_at(reader.tokens, at);
    let place = past_visibility(seen, at);
    match word_at(reader.alloc, reader.tokens, place)? {
        Some(alias) => Ok(RuleTail {
            seen,
            alias: Some(alias),
            next: place + 1,
        }),
        None => Ok(RuleTail {
            seen,
            alias: None,
            next: place,
        }),
    }
}

/// A rule with `as`, from its first words on.
fn renaming(reader: &Reader, at: usize, head: RuleHead) -> Result<ReadRule, Stop>
    requires deep { 2 ≤ reader.now.room }
    requires head { FoundHead reader.now.room reader.now.tokens.now at head }
    requires here { Shows rule_role reader.now.tokens.now head.next by_as }
    ensures { AnswersRule reader.entry.now at result }
{
    let tail = rule_tail(reader, head.next + 1)?;
    if !sees(reader.tokens, tail.next, Fixed::Semicolon) {
        return Err(Stop::Syntax(tail.next));
    }
    Ok(ReadRule {
        next: tail.next + 1,
        rule: Rule::As(
            spot(reader.tokens, at),
            head.origin,
            head.word,
            tail.seen,
            tail.alias,
        ),
    })
}

/// A rule with `insteadof`, from its first words on.
fn preference(reader: &Reader, at: usize, head: RuleHead) -> Result<ReadRule, Stop>
    requires deep { 2 ≤ reader.now.room }
    requires head { FoundHead reader.now.room reader.now.tokens.now at head }
    requires here { Shows rule_role reader.now.tokens.now head.next by_instead_of }
    ensures { AnswersRule reader.entry.now at result }
{
    let RuleHead { origin, word, next } = head;
    let Some(class) = origin else {
        return Err(Stop::Syntax(next));
    };
    let others = names_at(reader, next + 1)?;
    if !ends(reader.tokens, others.next, Closer::Semicolon) {
        return Err(Stop::Syntax(others.next));
    }
    Ok(ReadRule {
        next: others.next + 1,
        rule: Rule::InsteadOf(spot(reader.tokens, at), class, word, others.items),
    })
}

/// A rule.
fn rule(reader: &Reader, at: usize) -> Result<ReadRule, Stop>
    requires within { at ≤ length reader.now.tokens.now }
    requires deep { 2 ≤ reader.now.room }
    requires no_end { test is_right_brace (rest reader.now.tokens.now at) ≡ false }
    ensures { AnswersRule reader.entry.now at result }
{
    let head = rule_head(reader, at)?;
    match verb_at(reader.tokens, head.next) {
        Verb::As => renaming(reader, at, head),
        Verb::InsteadOf => preference(reader, at, head),
        _ => Err(Stop::Syntax(head.next)),
    }
}

/// The rules behind a `{`, and the `}` behind them.
pub(crate) fn rules_at(reader: &Reader, at: usize) -> Result<ReadRules, Stop>
    requires within { at ≤ length reader.now.tokens.now }
    requires deep { 2 ≤ reader.now.room }
    ensures { AnswersRules reader.entry.now at result }
{
    let mut rules = Items::new(reader.alloc);
    let mut next = at;
    loop {
        if sees_right_brace(reader.tokens, next) {
            return Ok(ReadRules {
                rules,
                next: next + 1,
            });
        }
        let read = rule(reader, next)?;
        rules.push(read.rule)?;
        next = read.next;
    }
}
