// Comments, tags and text in single quotes.

ghost use Rattle.std.specs.Prelude.{◌≡◌, ◌<◌, ◌≤◌, ◌+◌, ◌-◌, ◌^◌, length, slice_index, true, false, drop};
ghost use Rattle.php_lex_pieces.specs.Bytes.{len_before};
ghost use Rattle.php_lex_pieces.specs.Comments as spec;

use crate::bytes::{byte, is_blank, newline_len};
use crate::search::{next, next_of_three};
use memchr::memchr2;

#[tactic(auto, unfolding(crate::specs::Comments::ends_comment))]
fn ends_comment(text: &[u8]) -> bool
    ensures { result ≡ spec.ends_comment text.now }
{
    match byte(text, 0) {
        b'\n' | b'\r' => true,
        b'?' => byte(text, 1) == b'>',
        _ => false,
    }
}

/// The length of `#` or `//` at the front, or 0.
pub fn comment_start_len(text: &[u8]) -> usize
    ensures value { result ≡ spec.comment_start_len text.now }
    ensures within { result ≤ length text.now }
{
    match byte(text, 0) {
        b'#' => 1,
        b'/' if byte(text, 1) == b'/' => 2,
        _ => 0,
    }
}

/// The length of a comment on one line, whose first `start` bytes are its sign.
pub fn line_comment_len(text: &[u8], start: usize) -> usize
    requires { start ≤ length text.now }
    ensures value { result ≡ spec.line_comment_len text.now start }
    ensures within { (start ≤ result) × (result ≤ length text.now) }
{
    let mut end = next_of_three(b'\n', b'\r', b'?', text, start);
    while end < text.len() && !ends_comment(&text[end..]) {
        end = next_of_three(b'\n', b'\r', b'?', text, end + 1);
    }
    end
}

/// Whether `/*` stands at the front.
pub fn begins_comment(text: &[u8]) -> bool
    ensures value { result ≡ spec.begins_comment text.now }
    ensures within { result ≡ true → 2 ≤ length text.now }
{
    byte(text, 0) == b'/' && byte(text, 1) == b'*'
}

#[tactic(auto, unfolding(crate::specs::Comments::ends_block))]
fn ends_block(text: &[u8]) -> bool
    ensures value { result ≡ spec.ends_block text.now }
    ensures within { result ≡ true → 2 ≤ length text.now }
{
    byte(text, 0) == b'*' && byte(text, 1) == b'/'
}

/// Where the `*/` of a comment begins, or the length where there is none.
pub fn block_end(text: &[u8]) -> usize
    requires { 2 ≤ length text.now }
    ensures value { result ≡ 2 + spec.block_len text.now }
    ensures within { (2 ≤ result) × (result ≤ length text.now) }
    ensures closed { result < length text.now → result + 2 ≤ length text.now }
{
    let mut end = next(b'*', text, 2);
    while end < text.len() && !ends_block(&text[end..]) {
        end = next(b'*', text, end + 1);
    }
    end
}

/// Whether `<?=` stands at the front.
#[tactic(auto, unfolding(crate::specs::Comments::begins_echo))]
pub fn begins_echo(text: &[u8]) -> bool
    ensures value { result ≡ spec.begins_echo text.now }
    ensures within { result ≡ true → 3 ≤ length text.now }
{
    byte(text, 0) == b'<' && byte(text, 1) == b'?' && byte(text, 2) == b'='
}

fn is_tag_name(text: &[u8]) -> bool
    ensures value { result ≡ spec.is_tag_name text.now }
    ensures within { result ≡ true → 5 ≤ length text.now }
{
    5 <= text.len() && b"<?php".eq_ignore_ascii_case(&text[..5])
}

/// The length of `<?php` with what separates it from the script, or 0.
#[tactic(auto, unfolding(crate::specs::Comments::open_tag_len))]
pub fn open_tag_len(text: &[u8]) -> usize
    ensures value { result ≡ spec.open_tag_len text.now }
    ensures within { result ≤ length text.now }
{
    if !is_tag_name(text) {
        return 0;
    }
    let newline = newline_len(text, 5);
    if newline > 0 {
        5 + newline
    } else if text.len() == 5 {
        5
    } else if is_blank(text[5]) {
        6
    } else {
        0
    }
}

#[tactic(auto, unfolding(crate::specs::Comments::begins_tag))]
fn begins_tag(text: &[u8]) -> bool
    ensures { result ≡ spec.begins_tag text.now }
{
    begins_echo(text) || open_tag_len(text) > 0
}

/// How many bytes stand before the first start tag.
pub fn inline_len(text: &[u8]) -> usize
    ensures value { result ≡ len_before spec.begins_tag text.now }
    ensures within { result ≤ length text.now }
{
    let mut end = next(b'<', text, 0);
    while end < text.len() && !begins_tag(&text[end..]) {
        end = next(b'<', text, end + 1);
    }
    end
}

/// How many bytes stand before the single quote that closes a text, or all where there is none.
pub fn raw_len(text: &[u8]) -> usize
    ensures value { result ≡ spec.raw_len false text.now }
    ensures within { result ≤ length text.now }
{
    let mut end = 0;
    while let Some(distance) = memchr2(b'\'', b'\\', &text[end..]) {
        end += distance;
        if text[end] == b'\'' {
            return end;
        }
        // The byte behind a backslash closes nothing.
        if end + 1 == text.len() {
            return text.len();
        }
        end += 2;
    }
    text.len()
}
