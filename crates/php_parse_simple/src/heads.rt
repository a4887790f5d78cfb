// What stands in parentheses behind the word of a form.

ghost use Rattle.std.specs.Prelude.{◌≢◌, ◌≤◌, length};
ghost use Rattle.php_grammar.specs.declared.closer.Closer.TheVariants as ender;
ghost use Rattle.php_parse_simple.specs.HeadAnswer.{AnswersForHead, AnswersForeachHead, AnswersTarget, AnswersTest, AnswersTurn, AnswersValueList};

use crate::expression::expression;
use crate::look::{ends, sees, sees_as};
use crate::read::{Turn, discard, let_go, unclosed, unended};
use crate::role::Fixed;
use crate::values::values;
use php_ast::{Expr, ForHead, ForeachHead, Target};
use php_grammar::Closer;
use php_reader::look::sees_ampersand;
use php_reader::{Entry, Listed, Reader, Stop};
use sqlite_items::Items;

/// A test in parentheses.
pub fn test(reader: &Reader, at: usize) -> Result<Entry<Expr>, Stop>
    requires within { at ≤ length reader.now.tokens.now }
    requires some { 1 ≤ reader.now.room }
    ensures { AnswersTest reader.entry.now at result }
{
    if !sees(reader.tokens, at, Fixed::LeftParen) {
        return Err(Stop::Syntax(at));
    }
    let inside = Reader {
        room: reader.room - 1,
        alloc: reader.alloc,
        tokens: reader.tokens,
    };
    let read = expression(&inside, at + 1)?;
    if !ends(reader.tokens, read.next, Closer::Paren) {
        return Err(unclosed(read));
    }
    Ok(Entry {
        next: read.next + 1,
        item: read.expr,
    })
}

/// What takes a key or a value at each turn of a `foreach`. The reader has the levels that are left in the parentheses.
fn target(reader: &Reader, at: usize) -> Result<Entry<Target>, Stop>
    requires within { at ≤ length reader.now.tokens.now }
    requires some { 1 ≤ reader.now.room }
    ensures { AnswersTarget reader.entry.now at result }
{
    if sees_ampersand(reader.tokens, at) {
        let referred = expression(reader, at + 1)?;
        return Ok(Entry {
            next: referred.next,
            item: Target {
                is_reference: true,
                place: referred.expr,
            },
        });
    }
    let read = expression(reader, at)?;
    Ok(Entry {
        next: read.next,
        item: Target {
            is_reference: false,
            place: read.expr,
        },
    })
}

/// What stands behind the `as` of a `foreach`, with the parenthesis that ends it. The reader has the levels that are left
/// where the statement stands.
fn turn(reader: &Reader, at: usize) -> Result<Turn, Stop>
    requires within { at ≤ length reader.now.tokens.now }
    requires some { 2 ≤ reader.now.room }
    ensures { AnswersTurn reader.entry.now at result }
{
    let inside = Reader {
        room: reader.room - 1,
        alloc: reader.alloc,
        tokens: reader.tokens,
    };
    let first = target(&inside, at)?;
    if ends(reader.tokens, first.next, Closer::Paren) {
        return Ok(Turn {
            next: first.next + 1,
            key: None,
            value: first.item,
        });
    }
    if !ends(reader.tokens, first.next, Closer::DoubleArrow) {
        return Err(unended(first));
    }
    let second = target(&inside, first.next + 1)?;
    if !ends(reader.tokens, second.next, Closer::Paren) {
        let stop = unended(second);
        return Err(let_go(first, stop));
    }
    Ok(Turn {
        next: second.next + 1,
        key: Some(first.item),
        value: second.item,
    })
}

/// What stands in the parentheses of a `foreach`, with these.
pub fn foreach_head(reader: &Reader, at: usize) -> Result<Entry<ForeachHead>, Stop>
    requires within { at ≤ length reader.now.tokens.now }
    requires some { 1 ≤ reader.now.room }
    ensures { AnswersForeachHead reader.entry.now at result }
{
    if !sees(reader.tokens, at, Fixed::LeftParen) {
        return Err(Stop::Syntax(at));
    }
    let inside = Reader {
        room: reader.room - 1,
        alloc: reader.alloc,
        tokens: reader.tokens,
    };
    let walked = expression(&inside, at + 1)?;
    if !sees_as(reader.tokens, walked.next) {
        return Err(unclosed(walked));
    }
    let turn = turn(reader, walked.next + 1)?;
    Ok(Entry {
        next: turn.next,
        item: ForeachHead {
            walked: walked.expr,
            key: turn.key,
            value: turn.value,
        },
    })
}

/// The values of a list of a `for`, or none, and the token behind them. The reader has the levels that are left in the
/// parentheses.
fn value_list(reader: &Reader, at: usize, end: Closer) -> Result<Listed<Expr>, Stop>
    requires within { at ≤ length reader.now.tokens.now }
    requires other { end ≢ ender.Comma }
    ensures { AnswersValueList end reader.entry.now at result }
{
    if ends(reader.tokens, at, end) {
        if reader.room == 0 {
            return Err(Stop::TooDeep(at));
        }
        return Ok(Listed {
            items: Items::new(reader.alloc),
            next: at + 1,
        });
    }
    let list = values(reader, at)?;
    let behind = list.next;
    if !ends(reader.tokens, behind, end) {
        return Err(discard(list.items, Stop::Syntax(behind)));
    }
    Ok(Listed {
        items: list.items,
        next: behind + 1,
    })
}

/// What stands in the parentheses of a `for`, with these.
pub fn for_head(reader: &Reader, at: usize) -> Result<Entry<ForHead>, Stop>
    requires within { at ≤ length reader.now.tokens.now }
    requires some { 1 ≤ reader.now.room }
    ensures { AnswersForHead reader.entry.now at result }
{
    if !sees(reader.tokens, at, Fixed::LeftParen) {
        return Err(Stop::Syntax(at));
    }
    let inside = Reader {
        room: reader.room - 1,
        alloc: reader.alloc,
        tokens: reader.tokens,
    };
    let starts = value_list(&inside, at + 1, Closer::Semicolon)?;
    let tests = value_list(&inside, starts.next, Closer::Semicolon)?;
    let steps = value_list(&inside, tests.next, Closer::Paren)?;
    Ok(Entry {
        next: steps.next,
        item: ForHead {
            starts: starts.items,
            tests: tests.items,
            steps: steps.items,
        },
    })
}
