//! Statements, and the whole that they make.

ghost use Rattle.std.specs.Prelude.{◌≡◌, ◌≤◌, ◌<◌, ◌+◌, ◌-◌, ℕ, List, map, length, Some, IfOk, IfSome, IsSomeAnd};
ghost use Rattle.php_first_tree.specs.Expression as shown;
ghost use Rattle.php_first_tokens.specs.declared.token.Lexeme.TheVariants as lexeme;
ghost use Rattle.php_first_parse.specs.Spelling.{IsSpelling};
ghost use Rattle.php_first_parse.specs.Answers as answer;

use crate::sums::{Read, lexeme_at, sees, sum, token_at};
use php_base::NoMemory;
use php_first_tokens::{Lexeme, Token};
use php_first_tree::{Action, Part, Statement};
use sqlite_items::Items;
use std::alloc::Global;

/// How many parentheses may be open at once.
const MAX_OPEN: usize = 128;

/// What stands behind the variable that an assignment begins with.
fn assignment(
    alloc: Global,
    number: usize,
    tokens: &[Token],
    at: usize,
) -> Result<Option<Read<Action>>, NoMemory>
    requires { at ≤ length tokens.now }
    ensures { IfOk result (λ found. answer.AnswersCommand (lexeme.Variable number) tokens.now at found) }
{
    if !sees(tokens, at, Lexeme::Equals) {
        return Ok(None);
    }
    let Some(value) = sum(alloc, tokens, at + 1, MAX_OPEN)? else {
        return Ok(None);
    };
    if !sees(tokens, value.next, Lexeme::Semicolon) {
        return Ok(None);
    }
    Ok(Some(Read {
        tree: Action::Assign(number, value.tree),
        next: value.next + 1,
    }))
}

/// The part of an `echo` that begins at a place.
fn part(alloc: Global, tokens: &[Token], at: usize) -> Result<Option<Read<Part>>, NoMemory>
    requires { at ≤ length tokens.now }
    ensures { IfOk result (λ found. answer.AnswersPart tokens.now at found) }
{
    let Some(lexeme) = lexeme_at(tokens, at) else {
        return Ok(None);
    };
    if let Lexeme::Text(place) = lexeme {
        return Ok(Some(Read {
            tree: Part::Text(place),
            next: at + 1,
        }));
    }
    let Some(value) = sum(alloc, tokens, at, MAX_OPEN)? else {
        return Ok(None);
    };
    Ok(Some(Read {
        tree: Part::Value(value.tree),
        next: value.next,
    }))
}

/// The parts behind `echo`.
fn echo(alloc: Global, tokens: &[Token], at: usize) -> Result<Option<Read<Action>>, NoMemory>
    requires { at ≤ length tokens.now }
    ensures { IfOk result (λ found. answer.AnswersCommand lexeme.Echo tokens.now at found) }
{
    let mut parts = Items::new(alloc);
    let mut next = at;
    loop {
        let Some(read) = part(alloc, tokens, next)? else {
            return Ok(None);
        };
        parts.push(read.tree)?;
        if sees(tokens, read.next, Lexeme::Semicolon) {
            return Ok(Some(Read {
                tree: Action::Echo(parts),
                next: read.next + 1,
            }));
        }
        if !sees(tokens, read.next, Lexeme::Comma) {
            return Ok(None);
        }
        next = read.next + 1;
    }
}

/// The action that begins with the lexeme `first`, in front of the tokens from a place on.
fn action(
    alloc: Global,
    first: Lexeme,
    tokens: &[Token],
    at: usize,
) -> Result<Option<Read<Action>>, NoMemory>
    requires { at ≤ length tokens.now }
    ensures { IfOk result (λ found. answer.AnswersCommand first tokens.now at found) }
{
    match first {
        Lexeme::Variable(number) => assignment(alloc, number, tokens, at),
        Lexeme::Echo => echo(alloc, tokens, at),
        Lexeme::Inline(place) => Ok(Some(Read {
            tree: Action::Inline(place),
            next: at,
        })),
        Lexeme::Semicolon => Ok(Some(Read {
            tree: Action::Empty,
            next: at,
        })),
        _ => Ok(None),
    }
}

/// The statements that the tokens spell; `None` where they spell none.
///
/// At most 128 parentheses may be open at once. The time is linear in the number of tokens, and the
/// depth of calls is bounded by the parentheses alone.
pub fn parse(alloc: Global, tokens: &[Token]) -> Result<Option<Items<Statement>>, NoMemory>
    ensures found { IfOk result (λ found. IfSome found (λ statements. IsSpelling (map shown.statement_view statements) tokens.now)) }
    ensures only { (statements : List shown.Statement) → IsSpelling statements tokens.now → IfOk result (λ found. IsSomeAnd found (λ trees. map shown.statement_view trees ≡ statements)) }
    ensures unique { (these those : List shown.Statement) → IsSpelling these tokens.now → IsSpelling those tokens.now → these ≡ those }
{
    let mut statements = Items::new(alloc);
    let mut next = 0;
    while let Some(first) = token_at(tokens, next) {
        let Some(read) = action(alloc, first.lexeme, tokens, next + 1)? else {
            return Ok(None);
        };
        statements.push(Statement {
            line: first.line,
            action: read.tree,
        })?;
        next = read.next;
    }
    Ok(Some(statements))
}

#[cfg(test)]
mod tests {
    use super::*;
    use std::alloc::AllocError;
    use std::test::Fail;

    fn spelled(alloc: Global, lexemes: &[Lexeme]) -> Result<Vec<Token>, AllocError> {
        let mut tokens = Vec::new(alloc);
        for lexeme in lexemes {
            tokens.push(Token {
                lexeme: *lexeme,
                line: 7,
            })?;
        }
        Ok(tokens)
    }

    fn push_times(tokens: &mut Vec<Token>, lexeme: Lexeme, times: usize) -> Result<(), AllocError> {
        for _ in 0..times {
            tokens.push(Token { lexeme, line: 1 })?;
        }
        Ok(())
    }

    /// Whether `echo` with an integer in so many parentheses is a statement.
    fn may_nest(alloc: Global, depth: usize) -> Result<bool, Fail> {
        let mut tokens = spelled(alloc, &[Lexeme::Echo])?;
        push_times(&mut tokens, Lexeme::Open, depth)?;
        push_times(&mut tokens, Lexeme::Int(1), 1)?;
        push_times(&mut tokens, Lexeme::Close, depth)?;
        push_times(&mut tokens, Lexeme::Semicolon, 1)?;
        Ok(parse(alloc, tokens.as_slice())?.is_some())
    }

    #[test]
    fn reads_two_statements(rt: HostRuntime) -> Result<(), Fail> {
        let tokens = spelled(
            rt.alloc(),
            &[
                Lexeme::Variable(0),
                Lexeme::Equals,
                Lexeme::Int(2),
                Lexeme::Star,
                Lexeme::Int(3),
                Lexeme::Minus,
                Lexeme::Int(4),
                Lexeme::Semicolon,
                Lexeme::Echo,
                Lexeme::Variable(0),
                Lexeme::Comma,
                Lexeme::Int(5),
                Lexeme::Semicolon,
            ],
        )?;
        let statements = parse(rt.alloc(), tokens.as_slice())?.ok_or("no statements")?;
        assert_eq!(rt; statements.len(), 2);
        let first = statements.get(0).ok_or("no first")?;
        assert_eq!(rt; first.line, 7);
        let Action::Assign(number, value) = &first.action else {
            return Err(Fail::from("no assignment"));
        };
        assert_eq!(rt; *number, 0);
        assert_eq!(rt; value.first.rest.len(), 1);
        assert_eq!(rt; value.rest.len(), 1);
        Ok(())
    }

    /// The place of the text that a part of the `echo` is, where it is one.
    fn text_of(statement: &Statement, part: usize) -> Option<usize> {
        let Action::Echo(parts) = &statement.action else {
            return None;
        };
        match parts.get(part) {
            Some(Part::Text(place)) => Some(*place),
            _ => None,
        }
    }

    #[test]
    fn reads_texts_and_values(rt: HostRuntime) -> Result<(), Fail> {
        let tokens = spelled(
            rt.alloc(),
            &[
                Lexeme::Echo,
                Lexeme::Text(1),
                Lexeme::Comma,
                Lexeme::Int(2),
                Lexeme::Comma,
                Lexeme::Text(5),
                Lexeme::Semicolon,
            ],
        )?;
        let statements = parse(rt.alloc(), tokens.as_slice())?.ok_or("no statements")?;
        assert_eq!(rt; statements.len(), 1);
        let echo = statements.get(0).ok_or("no echo")?;
        assert_eq!(rt; text_of(echo, 0), Some(1));
        assert_eq!(rt; text_of(echo, 1), None);
        assert_eq!(rt; text_of(echo, 2), Some(5));
        Ok(())
    }

    #[test]
    fn reads_text_outside_and_semicolons(rt: HostRuntime) -> Result<(), Fail> {
        let tokens = spelled(
            rt.alloc(),
            &[Lexeme::Semicolon, Lexeme::Inline(1), Lexeme::Semicolon],
        )?;
        let statements = parse(rt.alloc(), tokens.as_slice())?.ok_or("no statements")?;
        assert_eq!(rt; statements.len(), 3);
        let outside = statements.get(1).ok_or("no text")?;
        let Action::Inline(place) = &outside.action else {
            return Err(Fail::from("no text outside the tags"));
        };
        assert_eq!(rt; *place, 1);
        let last = statements.get(2).ok_or("no semicolon")?;
        assert!(rt; matches!(&last.action, Action::Empty));
        Ok(())
    }

    #[test]
    fn refuses_texts_in_sums_and_side_by_side(rt: HostRuntime) -> Result<(), Fail> {
        let sum = &[
            Lexeme::Echo,
            Lexeme::Int(1),
            Lexeme::Plus,
            Lexeme::Text(3),
            Lexeme::Semicolon,
        ];
        let tokens = spelled(rt.alloc(), sum)?;
        assert!(rt; parse(rt.alloc(), tokens.as_slice())?.is_none());
        let side_by_side = &[
            Lexeme::Echo,
            Lexeme::Text(1),
            Lexeme::Text(2),
            Lexeme::Semicolon,
        ];
        let tokens = spelled(rt.alloc(), side_by_side)?;
        assert!(rt; parse(rt.alloc(), tokens.as_slice())?.is_none());
        Ok(())
    }

    #[test]
    fn nests_128_parentheses(rt: HostRuntime) -> Result<(), Fail> {
        assert!(rt; may_nest(rt.alloc(), 128)?);
        assert!(rt; !may_nest(rt.alloc(), 129)?);
        Ok(())
    }

    #[test]
    fn reads_long_sums(rt: HostRuntime) -> Result<(), Fail> {
        let mut tokens = spelled(rt.alloc(), &[Lexeme::Echo, Lexeme::Int(1)])?;
        for _ in 0..300_000 {
            push_times(&mut tokens, Lexeme::Plus, 1)?;
            push_times(&mut tokens, Lexeme::Int(1), 1)?;
        }
        push_times(&mut tokens, Lexeme::Semicolon, 1)?;
        assert!(rt; parse(rt.alloc(), tokens.as_slice())?.is_some());
        Ok(())
    }
}
