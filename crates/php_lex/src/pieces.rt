// Pieces, and the one that stands at the front of a text in each mode.

ghost use Rattle.std.specs.Prelude.{◌≡◌, ◌<◌, length, IfOk, false};
ghost use Rattle.php_lex.specs.Kept.{mode_kept};
ghost use Rattle.php_lex.specs.Modes.{is_in_script};
ghost use Rattle.php_lex.specs.PieceKept.{Finds, IsPieceOf, piece_kept, change_kept, text_kept};
ghost use Rattle.php_lex.specs.Pieces as spec;

use crate::fail::LexFail;
use crate::modes::Mode;
use crate::part_pieces::{
    brace_end_piece, key_end_piece, key_piece, member_piece, name_end_piece, name_piece,
    subject_piece, template_piece,
};
use php_lex_pieces::{Delimiter, begins_echo, inline_len, open_tag_len};
use php_token::{Keyword, TokenKind};

/// The bytes of which the text of a token is made.
#[derive(Clone, Copy)]
pub(crate) enum Wording<'a> {
    Plain(&'a [u8]),
    /// The bytes between single quotes.
    Raw(&'a [u8]),
    /// The text of a template that begins with these bytes.
    Template(Delimiter<'a>, &'a [u8]),
}

/// A token without its line.
#[derive(Clone, Copy)]
pub(crate) struct Draft<'a> {
    pub(crate) kind: TokenKind,
    pub(crate) text: Wording<'a>,
    pub(crate) int: i64,
}

#[derive(Clone, Copy)]
pub(crate) enum Change<'a> {
    Stay,
    Enter(Mode<'a>),
    Leave,
    Turn(Mode<'a>),
}

/// A piece. Beside a token of its own it may open a part of a template, and it may end one.
#[derive(Clone, Copy)]
pub(crate) struct Piece<'a> {
    pub(crate) len: usize,
    pub(crate) opens_part: bool,
    pub(crate) token: Option<Draft<'a>>,
    pub(crate) ends_part: bool,
    pub(crate) change: Change<'a>,
}

pub(crate) type Found<'a> = Result<Piece<'a>, LexFail>;

// No token.
pub(crate) fn nothing<'a>(len: usize, change: Change<'a>) -> Piece<'a>
    ensures value { piece_kept result ≡ spec.nothing len (change_kept change.entry) }
    ensures len { result.len ≡ len }
{
    Piece {
        len,
        opens_part: false,
        token: None,
        ends_part: false,
        change,
    }
}

// A token.
pub(crate) fn one<'a>(
    kind: TokenKind,
    len: usize,
    text: Wording<'a>,
    change: Change<'a>,
) -> Piece<'a>
    ensures value { piece_kept result ≡ spec.one kind len (text_kept text.entry) (change_kept change.entry) }
    ensures len { result.len ≡ len }
{
    Piece {
        len,
        opens_part: false,
        token: Some(Draft { kind, text, int: 0 }),
        ends_part: false,
        change,
    }
}

pub(crate) fn integer<'a>(len: usize, int: i64, change: Change<'a>) -> Piece<'a>
    ensures value { piece_kept result ≡ spec.integer len int (change_kept change.entry) }
    ensures len { result.len ≡ len }
{
    let text = Wording::Plain(&[]);
    Piece {
        len,
        opens_part: false,
        token: Some(Draft {
            kind: TokenKind::Int,
            text,
            int,
        }),
        ends_part: false,
        change,
    }
}

pub(crate) fn part_begin<'a>(len: usize, mode: Mode<'a>) -> Piece<'a>
    ensures value { piece_kept result ≡ spec.part_begin len (mode_kept mode.entry) }
    ensures len { result.len ≡ len }
{
    Piece {
        len,
        opens_part: true,
        token: None,
        ends_part: false,
        change: Change::Enter(mode),
    }
}

pub(crate) fn part_end<'a>(len: usize) -> Piece<'a>
    ensures value { piece_kept result ≡ spec.part_end len }
    ensures len { result.len ≡ len }
{
    Piece {
        len,
        opens_part: false,
        token: None,
        ends_part: true,
        change: Change::Leave,
    }
}

// A token that ends its part.
pub(crate) fn last_written<'a>(kind: TokenKind, text: &'a [u8]) -> Piece<'a>
    ensures value { piece_kept result ≡ spec.last_written kind (length text.now) text.now }
    ensures len { result.len ≡ length text.now }
{
    Piece {
        len: text.len(),
        opens_part: false,
        token: Some(Draft {
            kind,
            text: Wording::Plain(text),
            int: 0,
        }),
        ends_part: true,
        change: Change::Leave,
    }
}

/// Outside the tags.
#[tactic(auto, unfolding(crate::specs::Pieces::outside_piece))]
fn outside_piece<'a>(text: &'a [u8]) -> Found<'a>
    requires { 0 < length text.now }
    ensures value { Finds result (spec.outside_piece text.now) }
    ensures within { IfOk result (λ p. IsPieceOf p.len text.now) }
{
    if begins_echo(text) {
        let kind = TokenKind::Keyword(Keyword::Echo);
        return Ok(one(kind, 3, Wording::Plain(b"echo"), Change::Leave));
    }
    let tag = open_tag_len(text);
    if tag > 0 {
        return Ok(nothing(tag, Change::Leave));
    }
    let len = inline_len(text);
    Ok(one(
        TokenKind::Inline,
        len,
        Wording::Plain(&text[..len]),
        Change::Stay,
    ))
}

/// The piece at the front of a text that isn't in a script and begins on that line, or the fault there.
pub(crate) fn next_piece<'a>(mode: Mode<'a>, line: u32, text: &'a [u8]) -> Found<'a>
    requires some { 0 < length text.now }
    requires outside { is_in_script (mode_kept mode) ≡ false }
    ensures value { Finds result (spec.piece (mode_kept mode.entry) line text.now) }
    ensures within { IfOk result (λ p. IsPieceOf p.len text.now) }
{
    match mode {
        Mode::Outside => outside_piece(text),
        Mode::Script | Mode::Braces(_) | Mode::Block | Mode::Brackets(_) | Mode::Index => {
            unreachable!()
        }
        Mode::Quotes(begun) => template_piece(Delimiter::Quote, begun, line, text),
        Mode::Heredoc(label, begun) => {
            template_piece(Delimiter::Label(label), begun, line, text)
        }
        Mode::NameDue(begun) => name_piece(begun, line, text),
        Mode::NameRead(begun) => name_end_piece(begun, line, text),
        Mode::BraceDue(_) => brace_end_piece(line, text),
        Mode::Subject(begun) => subject_piece(begun, line, text),
        Mode::MemberDue(_) => member_piece(line, text),
        Mode::KeyDue(begun) => key_piece(begun, line, text),
        Mode::KeyRead(_) => key_end_piece(line, text),
    }
}
