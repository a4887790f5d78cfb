// Pieces of a script that are more than one token, or open or end something, and its faults.

ghost use Rattle.std.specs.Prelude.{◌≡◌, ◌<◌, ◌≤◌, length, IfOk, Ok, Some};
ghost use Rattle.php_lex.specs.Front.{KindWithin, kind_piece as spec_kind_piece};
ghost use Rattle.php_lex_pieces.specs.Heredocs.{IsWithin};
ghost use Rattle.php_lex.specs.Kept.{mode_kept};
ghost use Rattle.php_lex.specs.PieceKept.{Finds, IsPieceOf, piece_kept, change_kept};
ghost use Rattle.php_lex.specs.Pieces as spec;

use crate::fail::LexFail;
use crate::front::Kind;
use crate::modes::Mode;
use crate::pieces::{Change, Found, Piece, Wording, nothing, one, part_end};
use php_lex_pieces::{
    Delimiter, FirstLine, NumberFault, block_end, byte, closing_len, is_label_line, newline_len,
    nowdoc_len, raw_len, text_len,
};
use php_token::{Punct, TokenKind};

#[tactic(auto, unfolding(crate::specs::Pieces::block_comment))]
fn block_comment<'a>(line: u32, text: &'a [u8]) -> Found<'a>
    requires { 2 ≤ length text.now }
    ensures value { Finds result (spec.block_comment line text.now) }
    ensures within { IfOk result (λ p. IsPieceOf p.len text.now) }
{
    let end = block_end(text);
    if end == text.len() {
        Err(LexFail::Unclosed(line))
    } else {
        Ok(nothing(end + 2, Change::Stay))
    }
}

// A text in single quotes.
#[tactic(auto, unfolding(crate::specs::Pieces::raw))]
fn raw<'a>(line: u32, text: &'a [u8]) -> Found<'a>
    requires { 0 < length text.now }
    ensures value { Finds result (spec.raw line text.now) }
    ensures within { IfOk result (λ p. IsPieceOf p.len text.now) }
{
    let inner = &text[1..];
    let len = raw_len(inner);
    if len == inner.len() {
        Err(LexFail::Unclosed(line))
    } else {
        let value = Wording::Raw(&inner[..len]);
        Ok(one(TokenKind::Str, len + 2, value, Change::Stay))
    }
}

// Double quotes without parts are one piece, and else the first of them is.
#[tactic(auto, unfolding(crate::specs::Pieces::quoted))]
fn quoted<'a>(line: u32, text: &'a [u8]) -> Found<'a>
    requires { 0 < length text.now }
    ensures value { Finds result (spec.quoted line text.now) }
    ensures within { IfOk result (λ p. IsPieceOf p.len text.now) }
{
    let inner = &text[1..];
    let len = text_len(Delimiter::Quote, inner);
    if byte(text, 1 + len) == b'"' {
        let value = Wording::Template(Delimiter::Quote, inner);
        Ok(one(TokenKind::Str, len + 2, value, Change::Stay))
    } else {
        let mode = Mode::Quotes(line);
        Ok(one(
            TokenKind::Quote,
            1,
            Wording::Plain(&[]),
            Change::Enter(mode),
        ))
    }
}

// A nowdoc, of whose text so many bytes stand behind its first line.
#[tactic(auto, unfolding(crate::specs::Pieces::nowdoc))]
fn nowdoc<'a>(line: u32, label: &'a [u8], text: &'a [u8], start: usize) -> Found<'a>
    requires some { 0 < start }
    requires within { start ≤ length text.now }
    ensures value { Finds result (spec.nowdoc line label.now text.now start) }
    ensures within { IfOk result (λ p. IsPieceOf p.len text.now) }
{
    let body = &text[start..];
    let len = nowdoc_len(label, body);
    if len == body.len() {
        return Err(LexFail::Unclosed(line));
    }
    let total = start + len + closing_len(label, &body[len..]);
    let value = Wording::Plain(&body[..len]);
    Ok(one(TokenKind::Str, total, value, Change::Stay))
}

// A heredoc without parts is one piece, and else its first line is.
#[tactic(auto, unfolding(crate::specs::Pieces::heredoc_piece))]
fn heredoc<'a>(line: u32, label: &'a [u8], text: &'a [u8], start: usize) -> Found<'a>
    requires some { 0 < start }
    requires within { start ≤ length text.now }
    ensures value { Finds result (spec.heredoc_piece line label.now text.now start) }
    ensures within { IfOk result (λ p. IsPieceOf p.len text.now) }
{
    let body = &text[start..];
    let by = Delimiter::Label(label);
    let len = text_len(by, body);
    let closing = closing_len(label, &body[len..]);
    if closing > 0 {
        let value = Wording::Template(by, body);
        Ok(one(TokenKind::Str, start + len + closing, value, Change::Stay))
    } else {
        let mode = Mode::Heredoc(label, line);
        Ok(one(
            TokenKind::Quote,
            start,
            Wording::Plain(&[]),
            Change::Enter(mode),
        ))
    }
}

// A heredoc or a nowdoc, by its first line.
#[tactic(auto, unfolding(crate::specs::Pieces::labelled_piece))]
fn labelled<'a>(line: u32, text: &'a [u8], first: FirstLine) -> Found<'a>
    requires { IsWithin text.now first }
    ensures value { Finds result (spec.labelled_piece line text.now first) }
    ensures within { IfOk result (λ p. IsPieceOf p.len text.now) }
{
    let label = &text[first.start..first.end];
    if is_label_line(label, &text[first.len..]) {
        let total = first.len + label.len();
        Ok(one(TokenKind::Str, total, Wording::Plain(&[]), Change::Stay))
    } else if first.is_raw {
        nowdoc(line, label, text, first.len)
    } else {
        heredoc(line, label, text, first.len)
    }
}

// Braces and brackets inside a part.
fn sign_change<'a>(mode: Mode<'a>, punct: Punct) -> Change<'a>
    ensures { change_kept result ≡ spec.sign_change (mode_kept mode.entry) punct }
{
    match (mode, punct) {
        (Mode::Braces(_) | Mode::Block, Punct::LeftBrace) => Change::Enter(Mode::Block),
        (Mode::Brackets(_) | Mode::Index, Punct::LeftBracket) => Change::Enter(Mode::Index),
        (Mode::Block, Punct::RightBrace) | (Mode::Index, Punct::RightBracket) => Change::Leave,
        (Mode::Brackets(line), Punct::RightBracket) => Change::Turn(Mode::BraceDue(line)),
        _ => Change::Stay,
    }
}

fn is_part_end(mode: Mode, punct: Punct) -> bool
    ensures { result ≡ spec.is_part_end (mode_kept mode.entry) punct }
{
    matches!((mode, punct), (Mode::Braces(_), Punct::RightBrace))
}

// A punctuator, of which the text consists.
fn sign_piece<'a>(mode: Mode<'a>, punct: Punct, text: &'a [u8]) -> Piece<'a>
    ensures value { Ok (piece_kept result) ≡ spec.sign_piece (mode_kept mode.entry) 0 text.now (Some (punct, length text.now)) }
    ensures len { result.len ≡ length text.now }
{
    if is_part_end(mode, punct) {
        return part_end(text.len());
    }
    let change = sign_change(mode, punct);
    one(
        TokenKind::Punct(punct),
        text.len(),
        Wording::Plain(text),
        change,
    )
}

fn end_tag<'a>(text: &'a [u8]) -> Piece<'a>
    requires { 2 ≤ length text.now }
    ensures value { piece_kept result ≡ spec.end_tag text.now }
    ensures within { IsPieceOf result.len text.now }
{
    let kind = TokenKind::Punct(Punct::Semicolon);
    let len = 2 + newline_len(text, 2);
    one(
        kind,
        len,
        Wording::Plain(b";"),
        Change::Enter(Mode::Outside),
    )
}

fn number_fault(fault: NumberFault, line: u32) -> LexFail
    ensures { result ≡ spec.number_fault fault line }
{
    match fault {
        NumberFault::Float => LexFail::FloatLiteral(line),
        NumberFault::TooLarge => LexFail::IntTooLarge(line),
        NumberFault::NotOctal => LexFail::BadByte(line),
    }
}

/// The piece of a script that begins so, or the fault there.
pub(crate) fn kind_piece<'a>(kind: Kind, mode: Mode<'a>, line: u32, text: &'a [u8]) -> Found<'a>
    requires some { 0 < length text.now }
    requires within { KindWithin text.now kind }
    ensures value { Finds result (spec_kind_piece (mode_kept mode.entry) line text.now kind) }
    ensures within { IfOk result (λ p. IsPieceOf p.len text.now) }
{
    match kind {
        Kind::Sign(punct, len) => Ok(sign_piece(mode, punct, &text[..len])),
        Kind::Labelled(first) => labelled(line, text, first),
        Kind::Comment => block_comment(line, text),
        Kind::Raw => raw(line, text),
        Kind::Quoted => quoted(line, text),
        Kind::EndTag => Ok(end_tag(text)),
        Kind::BadNumber(fault) => Err(number_fault(fault, line)),
        Kind::BadByte => Err(LexFail::BadByte(line)),
    }
}
