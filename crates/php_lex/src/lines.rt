// The lines of a text, each searched for its end once.

ghost use Rattle.std.specs.Prelude.{◌≡◌, ◌<◌, ◌≤◌, ◌+◌, ◌-◌, ◌^◌, length, take, drop};
ghost use Rattle.php_lex.specs.Lines.{IsLineAt, line_len};
ghost use Rattle.php_lex.specs.Reading.{lines_after};

use memchr::memchr;

/// A line of a text.
#[derive(Clone, Copy)]
pub(crate) struct Line {
    /// Counted from 1.
    pub(crate) number: u32,
    /// Where its newline stands, or the text ends.
    pub(crate) end: usize,
}

fn line_end(text: &[u8], at: usize) -> usize
    requires { at ≤ length text.now }
    ensures value { result ≡ at + line_len (drop at text.now) }
    ensures within { result ≤ length text.now }
{
    match memchr(b'\n', &text[at..]) {
        Some(distance) => at + distance,
        None => text.len(),
    }
}

pub(crate) fn first_line(text: &[u8]) -> Line
    ensures line { IsLineAt text.now 0 result }
    ensures number { result.number ≡ 1 }
{
    Line {
        number: 1,
        end: line_end(text, 0),
    }
}

/// The line of a place, by that of a place before it.
pub(crate) fn line_behind(line: Line, text: &[u8], at: usize, to: usize) -> Line
    requires line { IsLineAt text.now at line }
    requires rises { at ≤ to }
    requires within { to ≤ length text.now }
    requires lines { line.number + (to - at) < 2 ^ 32 }
    ensures line { IsLineAt text.now to result }
    ensures number { result.number ≡ lines_after line.number (take (to - at) (drop at text.now)) }
    ensures few { result.number ≤ line.number + (to - at) }
{
    let mut number = line.number;
    let mut end = line.end;
    let mut begin = at;
    while end < to {
        number += 1;
        begin = end + 1;
        end = line_end(text, begin);
    }
    Line { number, end }
}
