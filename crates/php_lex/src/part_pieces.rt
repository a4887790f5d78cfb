// Pieces of templates and of the parts in them.

ghost use Rattle.std.specs.Prelude.{◌≡◌, ◌<◌, ◌≤◌, length, IfOk, true};
ghost use Rattle.php_lex_pieces.specs.Delimiters.{delimiter_of};
ghost use Rattle.php_lex_pieces.specs.Numbers.{sign_len, int_key};
ghost use Rattle.php_lex.specs.PieceKept.{Finds, IsPieceOf, piece_kept, change_kept};
ghost use Rattle.php_lex.specs.Pieces as spec;
ghost use Rattle.php_lex_pieces.specs.Templates.{ends as template_ends};

use crate::fail::LexFail;
use crate::modes::Mode;
use crate::pieces::{
    Change, Draft, Found, Piece, Wording, integer, last_written, one, part_begin, part_end,
};
use php_lex_pieces::{
    Delimiter, byte, closing_len, ends, int_key, is_cut_escape, is_name_start, key_len, name_len,
    text_len, word_kind,
};
use php_token::{Punct, TokenKind};

// Whether a part goes on behind its variable.
fn goes_on(text: &[u8], at: usize) -> bool
    requires { at ≤ length text.now }
    ensures { result ≡ spec.goes_on text.now at }
{
    match byte(text, at) {
        b'[' => true,
        b'-' => byte(text, at + 1) == b'>' && is_name_start(byte(text, at + 2)),
        _ => false,
    }
}

fn variable_part<'a>(line: u32, text: &'a [u8]) -> Piece<'a>
    requires { 0 < length text.now }
    ensures value { piece_kept result ≡ spec.variable_part line text.now }
    ensures within { IsPieceOf result.len text.now }
{
    let len = 1 + name_len(text, 1);
    let name = Draft {
        kind: TokenKind::Variable,
        text: Wording::Plain(&text[1..len]),
        int: 0,
    };
    if goes_on(text, len) {
        Piece {
            len,
            opens_part: true,
            token: Some(name),
            ends_part: false,
            change: Change::Enter(Mode::Subject(line)),
        }
    } else {
        Piece {
            len,
            opens_part: true,
            token: Some(name),
            ends_part: true,
            change: Change::Stay,
        }
    }
}

#[tactic(auto, unfolding(crate::specs::Pieces::part_piece))]
fn part_piece<'a>(begun: u32, line: u32, text: &'a [u8]) -> Found<'a>
    requires { 0 < length text.now }
    ensures value { Finds result (spec.part_piece begun line text.now) }
    ensures within { IfOk result (λ p. IsPieceOf p.len text.now) }
{
    match text[0] {
        b'\\' if is_cut_escape(text) => Err(LexFail::Unclosed(begun)),
        b'\\' => Err(LexFail::BadEscape(line)),
        b'{' => Ok(part_begin(1, Mode::Braces(line))),
        _ if byte(text, 1) == b'{' => Ok(part_begin(2, Mode::NameDue(line))),
        _ => Ok(variable_part(line, text)),
    }
}

// The length of what ends a template at the front.
#[tactic(auto, unfolding(php_lex_pieces::specs::Templates::ends))]
fn end_len(by: Delimiter, text: &[u8]) -> usize
    requires ends { template_ends (delimiter_of by) text.now ≡ true }
    requires some { 0 < length text.now }
    ensures value { result ≡ spec.closing (delimiter_of by.entry) text.now }
    ensures within { IsPieceOf result text.now }
{
    match by {
        Delimiter::Quote => 1,
        Delimiter::Label(label) => closing_len(label, text),
    }
}

/// In a template.
#[tactic(auto, unfolding(crate::specs::Pieces::template_piece))]
pub(crate) fn template_piece<'a>(
    by: Delimiter<'a>,
    begun: u32,
    line: u32,
    text: &'a [u8],
) -> Found<'a>
    requires { 0 < length text.now }
    ensures value { Finds result (spec.template_piece (delimiter_of by.entry) begun line text.now) }
    ensures within { IfOk result (λ p. IsPieceOf p.len text.now) }
{
    let len = text_len(by, text);
    if len > 0 {
        let value = Wording::Template(by, text);
        return Ok(one(TokenKind::Piece, len, value, Change::Stay));
    }
    if !ends(by, text) {
        return part_piece(begun, line, text);
    }
    let nothing = Wording::Plain(&[]);
    Ok(one(
        TokenKind::Unquote,
        end_len(by, text),
        nothing,
        Change::Leave,
    ))
}

fn written<'a>(kind: TokenKind, text: &'a [u8], change: Change<'a>) -> Piece<'a>
    ensures value { piece_kept result ≡ spec.written kind (length text.now) text.now (change_kept change.entry) }
    ensures len { result.len ≡ length text.now }
{
    one(kind, text.len(), Wording::Plain(text), change)
}

/// Behind a variable whose part goes on.
#[tactic(auto, unfolding(crate::specs::Pieces::subject_piece))]
pub(crate) fn subject_piece<'a>(begun: u32, line: u32, text: &'a [u8]) -> Found<'a>
    requires { 0 < length text.now }
    ensures value { Finds result (spec.subject_piece begun line text.now) }
    ensures within { IfOk result (λ p. IsPieceOf p.len text.now) }
{
    match text[0] {
        b'[' => {
            let kind = TokenKind::Punct(Punct::LeftBracket);
            Ok(written(kind, &text[..1], Change::Turn(Mode::KeyDue(begun))))
        }
        b'-' if byte(text, 1) == b'>' => {
            let kind = TokenKind::Punct(Punct::Arrow);
            Ok(written(kind, &text[..2], Change::Turn(Mode::MemberDue(begun))))
        }
        _ => Err(LexFail::BadEscape(line)),
    }
}

#[tactic(auto, unfolding(crate::specs::Pieces::member_piece))]
pub(crate) fn member_piece<'a>(line: u32, text: &'a [u8]) -> Found<'a>
    ensures value { Finds result (spec.member_piece line text.now) }
    ensures within { IfOk result (λ p. IsPieceOf p.len text.now) }
{
    let len = name_len(text, 0);
    if len == 0 {
        return Err(LexFail::BadEscape(line));
    }
    let name = &text[..len];
    Ok(last_written(word_kind(name), name))
}

fn number_key<'a>(begun: u32, text: &'a [u8], len: usize) -> Piece<'a>
    requires within { len ≤ length text.now }
    requires signed { sign_len text.now ≤ len }
    ensures value { piece_kept result ≡ spec.number_key begun text.now len (int_key text.now len) }
    ensures len { result.len ≡ len }
{
    let change = Change::Turn(Mode::KeyRead(begun));
    match int_key(text, len) {
        Some(int) => integer(len, int, change),
        None => one(TokenKind::Str, len, Wording::Plain(&text[..len]), change),
    }
}

#[tactic(auto, unfolding(crate::specs::Pieces::key_piece))]
pub(crate) fn key_piece<'a>(begun: u32, line: u32, text: &'a [u8]) -> Found<'a>
    requires { 0 < length text.now }
    ensures value { Finds result (spec.key_piece begun line text.now) }
    ensures within { IfOk result (λ p. IsPieceOf p.len text.now) }
{
    let change = Change::Turn(Mode::KeyRead(begun));
    let word = name_len(text, 0);
    if word > 0 {
        return Ok(one(TokenKind::Str, word, Wording::Plain(&text[..word]), change));
    }
    let name = name_len(text, 1);
    if text[0] == b'$' && name > 0 {
        let name_text = Wording::Plain(&text[1..1 + name]);
        return Ok(one(TokenKind::Variable, 1 + name, name_text, change));
    }
    let number = key_len(text);
    if number > 0 {
        Ok(number_key(begun, text, number))
    } else {
        Err(LexFail::BadEscape(line))
    }
}

#[tactic(auto, unfolding(crate::specs::Pieces::key_end_piece))]
pub(crate) fn key_end_piece<'a>(line: u32, text: &'a [u8]) -> Found<'a>
    requires { 0 < length text.now }
    ensures value { Finds result (spec.key_end_piece line text.now) }
    ensures within { IfOk result (λ p. IsPieceOf p.len text.now) }
{
    if text[0] == b']' {
        Ok(last_written(TokenKind::Punct(Punct::RightBracket), &text[..1]))
    } else {
        Err(LexFail::BadEscape(line))
    }
}

#[tactic(auto, unfolding(crate::specs::Pieces::name_piece))]
pub(crate) fn name_piece<'a>(begun: u32, line: u32, text: &'a [u8]) -> Found<'a>
    ensures value { Finds result (spec.name_piece begun line text.now) }
    ensures within { IfOk result (λ p. IsPieceOf p.len text.now) }
{
    let len = name_len(text, 0);
    if len == 0 {
        return Err(LexFail::BadEscape(line));
    }
    let change = Change::Turn(Mode::NameRead(begun));
    Ok(one(
        TokenKind::Variable,
        len,
        Wording::Plain(&text[..len]),
        change,
    ))
}

#[tactic(auto, unfolding(crate::specs::Pieces::name_end_piece))]
pub(crate) fn name_end_piece<'a>(begun: u32, line: u32, text: &'a [u8]) -> Found<'a>
    requires { 0 < length text.now }
    ensures value { Finds result (spec.name_end_piece begun line text.now) }
    ensures within { IfOk result (λ p. IsPieceOf p.len text.now) }
{
    match text[0] {
        b'}' => Ok(part_end(1)),
        b'[' => {
            let kind = TokenKind::Punct(Punct::LeftBracket);
            Ok(written(kind, &text[..1], Change::Turn(Mode::Brackets(begun))))
        }
        _ => Err(LexFail::BadEscape(line)),
    }
}

#[tactic(auto, unfolding(crate::specs::Pieces::brace_end_piece))]
pub(crate) fn brace_end_piece<'a>(line: u32, text: &'a [u8]) -> Found<'a>
    requires { 0 < length text.now }
    ensures value { Finds result (spec.brace_end_piece line text.now) }
    ensures within { IfOk result (λ p. IsPieceOf p.len text.now) }
{
    if text[0] == b'}' {
        Ok(part_end(1))
    } else {
        Err(LexFail::BadEscape(line))
    }
}
