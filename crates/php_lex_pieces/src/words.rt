// Names, keywords and the words of casts.

ghost use Rattle.std.specs.Prelude.{◌≡◌, ◌<◌, ◌≤◌, ◌+◌, length, slice_index, true, map, IfSome};
ghost use Rattle.php_lex_pieces.specs.Bytes.{is_name_start, name_len};
ghost use Rattle.php_lex_pieces.specs.Words as spec;

use crate::bytes::{Class, byte, name_len, run};
use crate::keywords::{is_word, keyword};
use php_token::{Cast, Keyword, TokenKind};

const CAST_WORDS: [(&[u8], Cast); 12] = [
    (b"int", Cast::Int),
    (b"integer", Cast::Int),
    (b"bool", Cast::Bool),
    (b"boolean", Cast::Bool),
    (b"string", Cast::Str),
    (b"array", Cast::Arr),
    (b"float", Cast::Other),
    (b"double", Cast::Other),
    (b"real", Cast::Other),
    (b"object", Cast::Other),
    (b"unset", Cast::Other),
    (b"binary", Cast::Other),
];

fn cast_in(mut table: &[(&[u8], Cast)], word: &[u8]) -> Option<Cast>
    ensures { result ≡ spec.look_up (map (λ row. (row.0.now, row.1)) table.entry.now) word.now }
{
    while let [row, rest @ ..] = table {
        if is_word(word, row.0) {
            return Some(row.1);
        }
        table = rest;
    }
    None
}

fn cast_word(word: &[u8]) -> Option<Cast>
    ensures { result ≡ spec.look_up spec.cast_words word.now }
{
    cast_in(&CAST_WORDS, word)
}

/// A keyword in any letter case, or else a name.
#[tactic(auto, unfolding(crate::specs::Words::word_kind))]
pub fn word_kind(word: &[u8]) -> TokenKind
    ensures { result ≡ spec.word_kind word.now }
{
    match keyword(word) {
        Some(keyword) => TokenKind::Keyword(keyword),
        None => TokenKind::Name,
    }
}

// A whole word at a place, in any letter case.
#[tactic(auto, unfolding(crate::specs::Words::is_word_at))]
fn is_word_at(text: &[u8], at: usize, expected: &[u8]) -> bool
    requires { at ≤ length text.now }
    ensures { result ≡ spec.is_word_at text.now at expected.now }
{
    is_word(&text[at..at + name_len(text, at)], expected)
}

// The length of `yield`, blanks and the whole word `from` at the front, or 0. So many bytes are the first word.
#[tactic(auto, unfolding(crate::specs::Words::yield_from_len, crate::specs::Words::is_word_at))]
fn yield_from_len(text: &[u8], len: usize) -> usize
    requires word { len ≡ name_len text.now 0 }
    requires within { len ≤ length text.now }
    ensures value { result ≡ spec.yield_from_len text.now }
    ensures within { result ≤ length text.now }
{
    if !is_word(&text[..len], b"yield") {
        return 0;
    }
    let second = 5 + run(Class::Blank, text, 5);
    if 5 < second && second <= text.len() && is_word_at(text, second, b"from") {
        second + name_len(text, second)
    } else {
        0
    }
}

/// The kind and the length of the word at the front.
#[tactic(auto, unfolding(crate::specs::Words::word))]
pub fn word(text: &[u8]) -> (TokenKind, usize)
    requires { is_name_start (slice_index text.now 0) ≡ true }
    ensures value { result ≡ spec.word text.now }
    ensures within { (0 < result.1) × (result.1 ≤ length text.now) }
{
    let len = name_len(text, 0);
    let yield_from = yield_from_len(text, len);
    if yield_from > 0 {
        return (TokenKind::Keyword(Keyword::YieldFrom), yield_from);
    }
    (word_kind(&text[..len]), len)
}

/// The cast at the front, and its length.
#[tactic(auto, unfolding(crate::specs::Words::cast))]
pub fn cast(text: &[u8]) -> Option<(Cast, usize)>
    requires { 0 < length text.now }
    ensures value { result ≡ spec.cast text.now }
    ensures within { IfSome result (λ found. (0 < found.1) × (found.1 ≤ length text.now)) }
{
    let start = 1 + run(Class::Gap, text, 1);
    let end = start + name_len(text, start);
    let cast = cast_word(&text[start..end])?;
    let close = end + run(Class::Gap, text, end);
    if byte(text, close) == b')' {
        Some((cast, close + 1))
    } else {
        None
    }
}
