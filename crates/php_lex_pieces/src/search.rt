// Searches for the next place at which a longer text may begin.

ghost use Rattle.std.specs.Prelude.{◌≡◌, ◌<◌, ◌≤◌, ◌+◌, ◌-◌, length, drop, List, ℕ, Bool};
ghost use Rattle.memchr.specs.Find.{is_byte, is_byte3};
ghost use Rattle.php_lex_pieces.specs.Search.{Skips};

use memchr::{memchr, memchr3};

/// The first place from `at` on of a byte, or the length.
pub(crate) fn next(byte: u8, text: &[u8], at: usize) -> usize
    requires { at ≤ length text.now }
    ensures within { (at ≤ result) × (result ≤ length text.now) }
    ensures skips { Skips (is_byte byte) text.now at result }
{
    match memchr(byte, &text[at..]) {
        Some(distance) => at + distance,
        None => text.len(),
    }
}

/// The first place from `at` on of one of three bytes, or the length.
pub(crate) fn next_of_three(first: u8, second: u8, third: u8, text: &[u8], at: usize) -> usize
    requires { at ≤ length text.now }
    ensures within { (at ≤ result) × (result ≤ length text.now) }
    ensures skips { Skips (is_byte3 first second third) text.now at result }
{
    match memchr3(first, second, third, &text[at..]) {
        Some(distance) => at + distance,
        None => text.len(),
    }
}
