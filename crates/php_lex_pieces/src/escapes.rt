// The bytes of double quotes and heredocs, outside their parts.

ghost use Rattle.std.specs.Prelude.{◌≡◌, ◌<◌, ◌≤◌, ◌+◌, ◌++◌, ◌^◌, length, OnOk, true};
ghost use Rattle.php_lex_pieces.specs.Delimiters.{delimiter_of};
ghost use Rattle.php_lex_pieces.specs.Templates as spec;

use crate::bytes::{Class, byte, is_name_start, run};
use crate::heredocs::closing_len;
use crate::numbers::value;
use php_base::NoMemory;

/// What the bytes of a stretch of a template stand for.
#[derive(Clone, Copy)]
pub(crate) enum Meaning {
    Itself,
    Byte(u8),
    /// A number that is written in UTF-8.
    Scalar(u32),
}

/// What ends a template.
#[derive(Clone, Copy)]
pub enum Delimiter<'a> {
    /// A double quote.
    Quote,
    /// The label of a heredoc, on a line of its own.
    Label(&'a [u8]),
}

fn escaped_byte(c: u8) -> u8
    ensures { result ≡ spec.escaped_byte c }
{
    match c {
        b'n' => b'\n',
        b't' => b'\t',
        b'r' => b'\r',
        b'v' => 11,
        b'e' => 27,
        b'f' => 12,
        b'\\' => b'\\',
        b'$' => b'$',
        _ => 0,
    }
}

#[tactic(auto, unfolding(crate::specs::Templates::scalar_escape))]
fn scalar_escape(text: &[u8]) -> (usize, Meaning)
    requires { 3 ≤ length text.now }
    ensures value { result ≡ spec.scalar_escape text.now }
    ensures within { result.0 ≤ length text.now }
{
    let digits = run(Class::Hexadecimal, text, 3);
    if digits == 0 || byte(text, 3 + digits) != b'}' {
        return (0, Meaning::Itself);
    }
    match value(16, &text[3..3 + digits], 0x10FFFF) {
        Some(n) => (4 + digits, Meaning::Scalar(n as u32)),
        None => (0, Meaning::Itself),
    }
}

// The low eight bits of what `n` digits at a place give.
fn byte_escape(base: u64, text: &[u8], at: usize, n: usize) -> (usize, Meaning)
    requires base { (0 < base) × (base ≤ 16) }
    requires few { n ≤ 3 }
    requires within { at + n ≤ length text.now }
    ensures { result ≡ spec.byte_escape base text.now at n }
{
    let code = value(base, &text[at..at + n], 1 << 20).unwrap_or(0);
    (at + n, Meaning::Byte((code % 256) as u8))
}

// A backslash at the front with what belongs to it.
#[tactic(auto, unfolding(crate::specs::Templates::escape))]
fn escape(in_quotes: bool, text: &[u8]) -> (usize, Meaning)
    requires { 0 < length text.now }
    ensures value { result ≡ spec.escape in_quotes text.now }
    ensures within { result.0 ≤ length text.now }
{
    let c = byte(text, 1);
    let escaped = escaped_byte(c);
    if escaped > 0 {
        (2, Meaning::Byte(escaped))
    } else if in_quotes && c == b'"' {
        (2, Meaning::Byte(b'"'))
    } else if b'0' <= c && c <= b'7' {
        byte_escape(8, text, 1, run(Class::Octal, text, 1).min(3))
    } else if (c == b'x' || c == b'X') && byte(text, 2).is_ascii_hexdigit() {
        byte_escape(16, text, 2, run(Class::Hexadecimal, text, 2).min(2))
    } else if c == b'u' && byte(text, 2) == b'{' {
        scalar_escape(text)
    } else if c == b'{' {
        (2, Meaning::Itself)
    } else {
        (1, Meaning::Itself)
    }
}

/// Whether `\u{` and hexadecimal digits up to the end stand at the front.
pub fn is_cut_escape(text: &[u8]) -> bool
    ensures { result ≡ spec.is_cut_escape text.now }
{
    text.len() == 3 + run(Class::Hexadecimal, text, 3)
}

/// Whether the end of the template stands at the front.
#[tactic(auto, unfolding(crate::specs::Templates::ends))]
pub fn ends(by: Delimiter, text: &[u8]) -> bool
    ensures { result ≡ spec.ends (delimiter_of by.entry) text.now }
{
    match by {
        Delimiter::Quote => byte(text, 0) == b'"',
        Delimiter::Label(label) => closing_len(label, text) > 0,
    }
}

#[tactic(auto, unfolding(crate::specs::Templates::begins_part))]
fn begins_part(text: &[u8]) -> bool
    ensures { result ≡ spec.begins_part text.now }
{
    let c = byte(text, 1);
    match byte(text, 0) {
        b'$' => is_name_start(c) || c == b'{',
        b'{' => c == b'$',
        _ => false,
    }
}

fn is_quote(by: Delimiter) -> bool
    ensures { result ≡ spec.is_quote (delimiter_of by.entry) }
{
    match by {
        Delimiter::Quote => true,
        Delimiter::Label(_) => false,
    }
}

// A byte of text or an escape at the front: its length, or 0, and what it stands for.
#[tactic(auto, unfolding(crate::specs::Templates::stretch))]
fn stretch(by: Delimiter, text: &[u8]) -> (usize, Meaning)
    requires { 0 < length text.now }
    ensures value { result ≡ spec.stretch (delimiter_of by.entry) text.now }
    ensures within { result.0 ≤ length text.now }
{
    if byte(text, 0) == b'\\' {
        escape(is_quote(by), text)
    } else if ends(by, text) || begins_part(text) {
        (0, Meaning::Itself)
    } else {
        (1, Meaning::Itself)
    }
}

/// How many bytes of text stand before the template ends, a part begins or an escape is malformed.
pub fn text_len(by: Delimiter, text: &[u8]) -> usize
    ensures value { result ≡ spec.text_len (delimiter_of by.entry) text.now }
    ensures within { result ≤ length text.now }
{
    let mut at = 0;
    while at < text.len() {
        let (len, _) = stretch(by, &text[at..]);
        if len == 0 {
            return at;
        }
        at += len;
    }
    at
}

fn push_utf8(n: u32, out: &mut Vec<u8>) -> Result<(), NoMemory>
    ensures { OnOk result (out.new.items ≡ out.old.items ++ spec.utf8 n) }
{
    if n < 128 {
        out.push(n as u8)?;
    } else if n < 2048 {
        out.push((192 + n / 64) as u8)?;
        out.push((128 + n % 64) as u8)?;
    } else if n < 65536 {
        out.push((224 + n / 4096) as u8)?;
        out.push((128 + n / 64 % 64) as u8)?;
        out.push((128 + n % 64) as u8)?;
    } else {
        out.push((240 + n / 262144 % 8) as u8)?;
        out.push((128 + n / 4096 % 64) as u8)?;
        out.push((128 + n / 64 % 64) as u8)?;
        out.push((128 + n % 64) as u8)?;
    }
    Ok(())
}

fn push_meant(text: &[u8], len: usize, meaning: Meaning, out: &mut Vec<u8>) -> Result<(), NoMemory>
    requires { len ≤ length text.now }
    ensures { OnOk result (out.new.items ≡ out.old.items ++ spec.meant text.now (len, meaning)) }
{
    match meaning {
        Meaning::Itself => out.extend_from_slice(&text[..len])?,
        Meaning::Byte(b) => out.push(b)?,
        Meaning::Scalar(n) => push_utf8(n, out)?,
    }
    Ok(())
}

/// Adds what the text of a template at the front stands for.
pub fn push_text(by: Delimiter, text: &[u8], out: &mut Vec<u8>) -> Result<(), NoMemory>
    ensures { OnOk result (out.new.items ≡ out.old.items ++ spec.text_value (delimiter_of by.entry) text.now) }
{
    let mut at = 0;
    while at < text.len() {
        let rest = &text[at..];
        let (len, meaning) = stretch(by, rest);
        if len == 0 {
            return Ok(());
        }
        push_meant(rest, len, meaning, out)?;
        at += len;
    }
    Ok(())
}
