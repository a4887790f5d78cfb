ghost use Rattle.std.specs.Prelude.{◌≡◌, ◌<◌, List, length, Some, None, OnOk, IfOk, IfSome, IfNone, IsSomeAnd};
ghost use Rattle.php_token.specs.Token.{token_at};
ghost use Rattle.php_first_tokens.specs.declared.token.Token.{Token as TokenMeant};
ghost use Rattle.php_first_tokens.specs.Lexemes.{AreFirst, lexeme_of, named_by, names_in, names_of, number_in, punctuator, with_name};

use crate::token::{FirstTokens, Lexeme, Token};
use indexmap::IndexSet;
use php_base::NoMemory;
use php_lex::{Keyword, Punct, TokenKind, Tokens};
use std::alloc::Global;

/// The number of a name: its place among the names, which it joins where it is new.
fn number_of<'a>(names: &mut IndexSet<&'a [u8]>, name: &'a [u8]) -> Result<usize, NoMemory>
    ensures names { OnOk result (names_of names.new.keys ≡ with_name (names_of names.old.keys) name.now) }
    ensures number { IfOk result (λ k. k ≡ number_in (names_of names.new.keys) name.now) }
    ensures within { IfOk result (λ k. k < length names.new.keys) }
{
    let (number, _) = names.insert_full(name)?;
    Ok(number)
}

fn punctuator(punct: Punct) -> Option<Lexeme>
    ensures { result ≡ punctuator punct }
{
    match punct {
        Punct::Assign => Some(Lexeme::Equals),
        Punct::Semicolon => Some(Lexeme::Semicolon),
        Punct::Comma => Some(Lexeme::Comma),
        Punct::Plus => Some(Lexeme::Plus),
        Punct::Minus => Some(Lexeme::Minus),
        Punct::Star => Some(Lexeme::Star),
        Punct::LeftParen => Some(Lexeme::Open),
        Punct::RightParen => Some(Lexeme::Close),
        _ => None,
    }
}

/// What the token at `at` is in the first language. The name of a variable joins the names.
fn lexeme_at<'a>(
    tokens: &'a Tokens,
    at: usize,
    names: &mut IndexSet<&'a [u8]>,
) -> Result<Option<Lexeme>, NoMemory>
    requires { at < length tokens.now }
    ensures names { OnOk result (names_of names.new.keys
        ≡ named_by (names_of names.old.keys) (token_at tokens.now at).text (token_at tokens.now at).kind) }
    ensures lexeme { IfOk result (λ found. found
        ≡ lexeme_of (names_of names.new.keys) at (token_at tokens.now at) (token_at tokens.now at).kind) }
{
    match tokens.kind(at) {
        TokenKind::Variable => Ok(Some(Lexeme::Variable(number_of(names, tokens.text(at))?))),
        TokenKind::Int => Ok(Some(Lexeme::Int(tokens.int(at)))),
        TokenKind::Str => Ok(Some(Lexeme::Text(at))),
        TokenKind::Inline => Ok(Some(Lexeme::Inline(at))),
        TokenKind::Keyword(Keyword::Echo) => Ok(Some(Lexeme::Echo)),
        TokenKind::Punct(punct) => Ok(punctuator(punct)),
        _ => Ok(None),
    }
}

/// The tokens of the first language that those of a script are. `None` where one of them is none of it.
///
/// The time is linear in the number of tokens, and no text is copied.
pub fn narrow<'a>(alloc: Global, tokens: &'a Tokens) -> Result<Option<FirstTokens<'a>>, NoMemory>
    ensures names { IfOk result (λ found. IfSome found (λ first. names_of first.names.items ≡ names_in tokens.now)) }
    ensures found { IfOk result (λ found. IfSome found (λ first. AreFirst tokens.now first.tokens.items)) }
    ensures only { (firsts : List TokenMeant) → AreFirst tokens.now firsts →
        IfOk result (λ found. IsSomeAnd found (λ first. first.tokens.items ≡ firsts)) }
{
    let mut firsts = Vec::new(alloc);
    let mut names = IndexSet::new(alloc);
    for at in 0..tokens.len() {
        let Some(lexeme) = lexeme_at(tokens, at, &mut names)? else {
            return Ok(None);
        };
        firsts.push(Token {
            lexeme,
            line: tokens.line(at),
        })?;
    }
    let names = Vec::from_slice(alloc, names.as_slice())?;
    Ok(Some(FirstTokens {
        tokens: firsts,
        names,
    }))
}
