// Heredocs and nowdocs.

ghost use Rattle.std.specs.Prelude.{drop, ◌-◌, ◌≡◌, ◌<◌, ◌≤◌, ◌+◌, ◌^◌, length, IfSome, true};
ghost use Rattle.php_lex_pieces.specs.Bytes.{len_before};
ghost use Rattle.php_lex_pieces.specs.Heredocs as spec;
ghost use Rattle.php_lex_pieces.specs.Templates as template;

use crate::bytes::{Class, byte, line_end_len, name_len, run};
use crate::search::next_of_three;

/// The first line of a heredoc or a nowdoc: where the label stands, and the length with the end of the line.
#[derive(Clone, Copy)]
pub struct FirstLine {
    /// Where the label begins.
    pub start: usize,
    /// Where it ends.
    pub end: usize,
    /// Whether it is a nowdoc, whose text stands for itself.
    pub is_raw: bool,
    /// The length of the line with its end.
    pub len: usize,
}

fn labelled(text: &[u8], quote: u8, start: usize) -> Option<FirstLine>
    requires { start ≤ length text.now }
    ensures value { result ≡ spec.labelled text.now quote start }
    ensures within { IfSome result (spec.IsWithin text.now) }
{
    let end = start + name_len(text, start);
    let after = if quote > 0 { end + 1 } else { end };
    let line_end = line_end_len(text, after);
    if start < end && (quote == 0 || byte(text, end) == quote) && line_end > 0 {
        Some(FirstLine {
            start,
            end,
            is_raw: quote == b'\'',
            len: after + line_end,
        })
    } else {
        None
    }
}

/// The first line of a heredoc or a nowdoc at the front.
#[tactic(auto, unfolding(crate::specs::Heredocs::opening))]
pub fn opening(text: &[u8]) -> Option<FirstLine>
    ensures value { result ≡ spec.opening text.now }
    ensures within { IfSome result (spec.IsWithin text.now) }
{
    if byte(text, 0) != b'<' || byte(text, 1) != b'<' || byte(text, 2) != b'<' {
        return None;
    }
    let at = 3 + run(Class::Gap, text, 3);
    match byte(text, at) {
        b'"' => labelled(text, b'"', at + 1),
        b'\'' => labelled(text, b'\'', at + 1),
        _ => labelled(text, 0, at),
    }
}

fn ends_line(text: &[u8], at: usize) -> bool
    requires { at ≤ length text.now }
    ensures { result ≡ template.ends_line text.now at }
{
    let end = if byte(text, at) == b';' { at + 1 } else { at };
    text.len() == end || line_end_len(text, end) > 0
}

/// Whether the label stands alone on the line at the front.
#[tactic(auto, unfolding(crate::specs::Templates::is_label_line))]
pub fn is_label_line(label: &[u8], text: &[u8]) -> bool
    ensures value { result ≡ template.is_label_line label.now text.now }
    ensures within { result ≡ true → length label.now ≤ length text.now }
{
    text.starts_with(label) && ends_line(text, label.len())
}

/// The length of the newline and the label that end a text at the front, or 0.
#[tactic(auto, unfolding(crate::specs::Templates::closing_len))]
pub fn closing_len(label: &[u8], text: &[u8]) -> usize
    ensures value { result ≡ template.closing_len label.now text.now }
    ensures within { result ≤ length text.now }
{
    let newline = line_end_len(text, 0);
    if newline > 0 && is_label_line(label, &text[newline..]) {
        newline + label.len()
    } else {
        0
    }
}

fn closes(label: &[u8], text: &[u8]) -> bool
    ensures { result ≡ template.closes label.now text.now }
{
    closing_len(label, text) > 0
}

/// How many bytes of a nowdoc stand before the newline in front of its label, or all where there is none.
pub fn nowdoc_len(label: &[u8], text: &[u8]) -> usize
    ensures value { result ≡ template.nowdoc_len label.now text.now }
    ensures within { result ≤ length text.now }
{
    let mut end = next_of_three(b'\n', b'\r', b'\n', text, 0);
    while end < text.len() && !closes(label, &text[end..]) {
        end = next_of_three(b'\n', b'\r', b'\n', text, end + 1);
    }
    end
}
