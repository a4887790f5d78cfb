// What stands at the front of a script, by one look at it.

ghost use Rattle.std.specs.Prelude.{◌≡◌, ◌<◌, length, slice_index, true};
ghost use Rattle.std.specs.Char.{is_ascii_digit};
ghost use Rattle.php_lex.specs.Front.{FrontWithin, Sees, simple_kept};
ghost use Rattle.php_lex_pieces.specs.Heredocs.{opening as spec_opening};
ghost use Rattle.php_lex.specs.Kept.{mode_kept};
ghost use Rattle.php_lex.specs.Modes.{stay};
ghost use Rattle.php_lex_pieces.specs.Numbers.{number as spec_number};
ghost use Rattle.php_lex.specs.Pieces as spec;
ghost use Rattle.php_lex_pieces.specs.Punctuators.{punctuator as spec_punctuator};
ghost use Rattle.php_lex_pieces.specs.Words.{cast as spec_cast};

use crate::modes::Mode;
use php_lex_pieces::{
    Class, FirstLine, NumberFault, begins_comment, byte, cast, comment_start_len, is_blank,
    is_name_start, line_comment_len, name_len, number, opening, punctuator, run, word,
};
use php_token::{Punct, TokenKind};

/// A piece of a script that is one token and opens and ends nothing.
#[derive(Clone, Copy)]
pub(crate) struct Simple<'a> {
    pub(crate) len: usize,
    pub(crate) kind: TokenKind,
    pub(crate) text: &'a [u8],
    pub(crate) int: i64,
}

/// A piece of a script that is still to be read, by how it begins.
#[derive(Clone, Copy)]
pub(crate) enum Kind {
    /// A punctuator inside a part of a template, and its length.
    Sign(Punct, usize),
    /// A heredoc or a nowdoc.
    Labelled(FirstLine),
    /// `/*`
    Comment,
    /// A single quote.
    Raw,
    /// A double quote.
    Quoted,
    /// `?>`
    EndTag,
    BadNumber(NumberFault),
    BadByte,
}

/// What stands at the front of a script.
#[derive(Clone, Copy)]
pub(crate) enum Front<'a> {
    /// So many bytes without a token: blanks, or a comment on one line.
    Nothing(usize),
    Simple(Simple<'a>),
    General(Kind),
}

// A token that has a text.
fn written<'a>(kind: TokenKind, len: usize, text: &'a [u8]) -> Simple<'a>
    ensures value { simple_kept result ≡ spec.one kind len text.now stay }
    ensures len { result.len ≡ len }
{
    Simple {
        len,
        kind,
        text,
        int: 0,
    }
}

#[tactic(auto, unfolding(crate::specs::Pieces::variable))]
fn variable<'a>(mode: Mode<'a>, text: &'a [u8]) -> Front<'a>
    requires { 0 < length text.now }
    ensures value { Sees (λ line. spec.variable line text.now) (mode_kept mode.entry) text.now result }
    ensures within { FrontWithin text.now result }
{
    let len = name_len(text, 1);
    if len == 0 {
        return Front::General(Kind::BadByte);
    }
    Front::Simple(written(TokenKind::Variable, 1 + len, &text[1..1 + len]))
}

fn integer<'a>(mode: Mode<'a>, text: &'a [u8]) -> Front<'a>
    requires { is_ascii_digit (slice_index text.now 0) ≡ true }
    ensures value { Sees (λ line. spec.number_piece line (spec_number text.now)) (mode_kept mode.entry) text.now result }
    ensures within { FrontWithin text.now result }
{
    match number(text) {
        Ok((len, n)) => Front::Simple(Simple {
            len,
            kind: TokenKind::Int,
            text: &[],
            int: n as i64,
        }),
        Err(fault) => Front::General(Kind::BadNumber(fault)),
    }
}

// Outside the parts of templates a punctuator opens and ends nothing.
fn punctuation<'a>(mode: Mode<'a>, text: &'a [u8]) -> Front<'a>
    ensures value { Sees (λ line. spec.sign_piece (mode_kept mode.entry) line text.now (spec_punctuator text.now))
        (mode_kept mode.entry) text.now result }
    ensures within { FrontWithin text.now result }
{
    let Some((punct, len)) = punctuator(text) else {
        return Front::General(Kind::BadByte);
    };
    if let Mode::Script = mode {
        Front::Simple(written(TokenKind::Punct(punct), len, &text[..len]))
    } else {
        Front::General(Kind::Sign(punct, len))
    }
}

fn cast_or_sign<'a>(mode: Mode<'a>, text: &'a [u8]) -> Front<'a>
    requires { 0 < length text.now }
    ensures value { Sees (λ line. spec.cast_or_sign (mode_kept mode.entry) line text.now (spec_cast text.now))
        (mode_kept mode.entry) text.now result }
    ensures within { FrontWithin text.now result }
{
    match cast(text) {
        Some((cast, len)) => Front::Simple(written(TokenKind::Cast(cast), len, &text[..len])),
        None => punctuation(mode, text),
    }
}

fn heredoc_or_sign<'a>(mode: Mode<'a>, text: &'a [u8]) -> Front<'a>
    ensures value { Sees (λ line. spec.heredoc_or_sign (mode_kept mode.entry) line text.now (spec_opening text.now))
        (mode_kept mode.entry) text.now result }
    ensures within { FrontWithin text.now result }
{
    match opening(text) {
        Some(first) => Front::General(Kind::Labelled(first)),
        None => punctuation(mode, text),
    }
}

// What begins with a sign.
#[tactic(auto, unfolding(crate::specs::Pieces::sign))]
fn sign<'a>(mode: Mode<'a>, text: &'a [u8]) -> Front<'a>
    requires { 0 < length text.now }
    ensures value { Sees (λ line. spec.sign (mode_kept mode.entry) line text.now) (mode_kept mode.entry) text.now result }
    ensures within { FrontWithin text.now result }
{
    let next = byte(text, 1);
    match text[0] {
        b'\'' => Front::General(Kind::Raw),
        b'"' => Front::General(Kind::Quoted),
        b'$' => variable(mode, text),
        b'?' if next == b'>' => Front::General(Kind::EndTag),
        b'.' if next.is_ascii_digit() => Front::General(Kind::BadNumber(NumberFault::Float)),
        b'<' => heredoc_or_sign(mode, text),
        b'(' => cast_or_sign(mode, text),
        _ => punctuation(mode, text),
    }
}

/// What stands at the front of a script, outside the parts of templates or in one.
#[tactic(auto, unfolding(crate::specs::Pieces::script_piece))]
pub(crate) fn look<'a>(mode: Mode<'a>, text: &'a [u8]) -> Front<'a>
    requires { 0 < length text.now }
    ensures value { Sees (λ line. spec.script_piece (mode_kept mode.entry) line text.now) (mode_kept mode.entry) text.now result }
    ensures within { FrontWithin text.now result }
{
    let b = text[0];
    if is_blank(b) {
        return Front::Nothing(run(Class::Blank, text, 0));
    }
    if is_name_start(b) {
        let (kind, len) = word(text);
        return Front::Simple(written(kind, len, &text[..len]));
    }
    if b.is_ascii_digit() {
        return integer(mode, text);
    }
    let comment = comment_start_len(text);
    if comment > 0 {
        Front::Nothing(line_comment_len(text, comment))
    } else if begins_comment(text) {
        Front::General(Kind::Comment)
    } else {
        sign(mode, text)
    }
}
