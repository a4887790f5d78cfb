// The tokens of a script, seen as a list.

ghost use Rattle.std.specs.Prelude.{◌≡◌, ◌<◌, ◌++◌, [], ◌∷◌, length, false, Some, IfOk, OnOk};
ghost use Rattle.php_token.specs.declared.kind.TokenKind.TheVariants.{Int};
ghost use Rattle.php_lex_pieces.specs.Comments.{raw_value};
ghost use Rattle.php_lex.specs.Entry.{AllWithin, Keeps, Adds, tokens_in};
ghost use Rattle.php_lex.specs.PieceKept.{draft_kept, piece_kept, text_kept};
ghost use Rattle.php_lex.specs.Reading.{token_if, token_of_draft, tokens_of, on_line};
ghost use Rattle.php_lex.specs.Pieces.{draft};
ghost use Rattle.php_lex.specs.Front.{simple_kept};
ghost use Rattle.php_token.specs.Token.{token_at, the_token};

use crate::front::Simple;
use crate::pieces::{Draft, Piece, Wording};
use memchr::memchr;
use php_base::NoMemory;
use php_lex_pieces::{byte, push_text};
use php_token::TokenKind;
use std::alloc::Global;
use std::marker::Model;

/// Where the text of a token stands.
#[derive(Clone, Copy)]
pub(crate) enum TokenText<'a> {
    /// As it is: mostly a part of the source.
    Plain(&'a [u8]),
    /// In the bytes made from escapes, from the first place to before the second.
    Decoded(usize, usize),
}

#[derive(Clone, Copy)]
pub(crate) struct Entry<'a> {
    pub(crate) kind: TokenKind,
    pub(crate) text: TokenText<'a>,
    pub(crate) int: i64,
    pub(crate) line: u32,
}

/// The tokens of a script. Texts that stand in the source unchanged are not copied.
#[derive(Drop)]
pub struct Tokens<'a> {
    entries: Vec<Entry<'a>>,
    decoded: Vec<u8>,
}

impl<'a> Model for Tokens<'a> {
    ghost use Rattle.std.specs.Prelude.{List, length, map};
    ghost use Rattle.php_token.specs.Token.{Token};

    ghost Value = { List Token };

    ghost use Rattle.php_lex.specs.Entry.{token_of, AllWithin};

    ghost view = { λ t. map (token_of t.decoded.items) t.entries.items };

    ghost invariant = { λ t. AllWithin (length t.decoded.items) t.entries.items };
}

impl<'a> Tokens<'a> {
    /// How many tokens there are.
    pub fn len(&self) -> usize
        ensures { result ≡ length self.now }
    {
        self.entries.len()
    }

    /// The kind of the token at `at`.
    pub fn kind(&self, at: usize) -> TokenKind
        requires { at < length self.now }
        ensures { result ≡ (token_at self.now at).kind }
    {
        self.entries[at].kind
    }

    /// The text of the token at `at`: what it stands for, or its bytes as written. It is empty at the
    /// kinds that have none.
    pub fn text(&self, at: usize) -> &[u8]
        requires { at < length self.now }
        ensures { result.now ≡ (token_at self.now at).text }
    {
        match self.entries[at].text {
            TokenText::Plain(text) => text,
            TokenText::Decoded(start, end) => &self.decoded[start..end],
        }
    }

    /// The value of the `Int` at `at`.
    pub fn int(&self, at: usize) -> i64
        requires in_range { at < length self.now }
        requires is_int { (token_at self.now at).kind ≡ Int }
        ensures { result ≡ (token_at self.now at).int }
    {
        self.entries[at].int
    }

    /// The line on which the token at `at` begins, counted from 1.
    pub fn line(&self, at: usize) -> u32
        requires { at < length self.now }
        ensures { result ≡ (token_at self.now at).line }
    {
        self.entries[at].line
    }
}

/// Tokens while they are made.
#[derive(Drop)]
pub(crate) struct Builder<'a> {
    entries: Vec<Entry<'a>>,
    decoded: Vec<u8>,
}

// Adds what the bytes between single quotes stand for.
fn push_raw(text: &[u8], out: &mut Vec<u8>) -> Result<(), NoMemory>
    ensures { OnOk result (out.new.items ≡ out.old.items ++ raw_value false text.now) }
{
    let mut at = 0;
    while at < text.len() {
        let next = byte(text, at + 1);
        if text[at] == b'\\' && (next == b'\\' || next == b'\'') {
            out.push(next)?;
            at += 2;
        } else {
            out.push(text[at])?;
            at += 1;
        }
    }
    Ok(())
}

// Adds the text of a token.
fn decode(text: Wording, decoded: &mut Vec<u8>) -> Result<(), NoMemory>
    ensures { OnOk result (decoded.new.items ≡ decoded.old.items ++ text_kept text.entry) }
{
    match text {
        Wording::Plain(text) => decoded.extend_from_slice(text)?,
        Wording::Raw(text) => push_raw(text, decoded)?,
        Wording::Template(by, text) => push_text(by, text, decoded)?,
    }
    Ok(())
}

fn keep_decoded<'a>(text: Wording<'a>, decoded: &mut Vec<u8>) -> Result<TokenText<'a>, NoMemory>
    ensures { IfOk result (Keeps (text_kept text.entry) decoded.old.items decoded.new.items) }
{
    let start = decoded.len();
    decode(text, decoded)?;
    Ok(TokenText::Decoded(start, decoded.len()))
}

// A text that stands in the source unchanged is not copied.
fn keep<'a>(text: Wording<'a>, decoded: &mut Vec<u8>) -> Result<TokenText<'a>, NoMemory>
    ensures { IfOk result (Keeps (text_kept text.entry) decoded.old.items decoded.new.items) }
{
    match text {
        Wording::Plain(bytes) => Ok(TokenText::Plain(bytes)),
        Wording::Raw(bytes) if memchr(b'\\', bytes).is_none() => Ok(TokenText::Plain(bytes)),
        _ => keep_decoded(text, decoded),
    }
}

fn push<'a>(
    kind: TokenKind,
    text: Wording<'a>,
    int: i64,
    line: u32,
    out: &mut Builder<'a>,
) -> Result<(), NoMemory>
    requires { AllWithin (length out.old.decoded.items) out.old.entries.items }
    ensures { OnOk result (Adds (the_token kind (text_kept text.entry) int line ∷ [])
        out.old.entries.items out.new.entries.items out.old.decoded.items out.new.decoded.items) }
{
    let text = keep(text, &mut out.decoded)?;
    out.entries.push(Entry {
        kind,
        text,
        int,
        line,
    })?;
    Ok(())
}

fn push_if<'a>(token: Option<Draft<'a>>, line: u32, out: &mut Builder<'a>) -> Result<(), NoMemory>
    requires { AllWithin (length out.old.decoded.items) out.old.entries.items }
    ensures { OnOk result (Adds (token_of_draft line (draft_kept token.entry))
        out.old.entries.items out.new.entries.items out.old.decoded.items out.new.decoded.items) }
{
    match token {
        Some(draft) => push(draft.kind, draft.text, draft.int, line, out),
        None => Ok(()),
    }
}

fn mark_if(is_marked: bool, kind: TokenKind, line: u32, out: &mut Builder) -> Result<(), NoMemory>
    requires { AllWithin (length out.old.decoded.items) out.old.entries.items }
    ensures { OnOk result (Adds (token_if is_marked (on_line line (draft kind [])))
        out.old.entries.items out.new.entries.items out.old.decoded.items out.new.decoded.items) }
{
    if is_marked {
        push(kind, Wording::Plain(&[]), 0, line, out)
    } else {
        Ok(())
    }
}

/// Adds the tokens of a piece.
pub(crate) fn put<'a>(piece: Piece<'a>, line: u32, out: &mut Builder<'a>) -> Result<(), NoMemory>
    requires { AllWithin (length out.old.decoded.items) out.old.entries.items }
    ensures { OnOk result (Adds (tokens_of line (piece_kept piece.entry))
        out.old.entries.items out.new.entries.items out.old.decoded.items out.new.decoded.items) }
{
    mark_if(piece.opens_part, TokenKind::Part, line, out)?;
    push_if(piece.token, line, out)?;
    mark_if(piece.ends_part, TokenKind::EndPart, line, out)
}

/// Adds the token of a simple piece.
pub(crate) fn put_simple<'a>(
    piece: Simple<'a>,
    line: u32,
    out: &mut Builder<'a>,
) -> Result<(), NoMemory>
    requires { AllWithin (length out.old.decoded.items) out.old.entries.items }
    ensures { OnOk result (Adds (tokens_of line (simple_kept piece.entry))
        out.old.entries.items out.new.entries.items out.old.decoded.items out.new.decoded.items) }
{
    push(piece.kind, Wording::Plain(piece.text), piece.int, line, out)
}

impl<'a> Builder<'a> {
    pub(crate) fn new(alloc: Global) -> Builder<'a>
        ensures entries { result.entries.items ≡ [] }
        ensures decoded { result.decoded.items ≡ [] }
    {
        Builder {
            entries: Vec::new(alloc),
            decoded: Vec::new(alloc),
        }
    }

    pub(crate) fn finish(self) -> Tokens<'a>
        requires { AllWithin (length self.decoded.items) self.entries.items }
        ensures { result ≡ tokens_in self.entry.decoded.items self.entry.entries.items }
    {
        Tokens {
            entries: self.entries,
            decoded: self.decoded,
        }
    }
}
