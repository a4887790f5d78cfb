// Integer literals.

ghost use Rattle.std.specs.Prelude.{◌≡◌, ◌<◌, ◌≤◌, ◌^◌, ◌+◌, ℤ, pos, length, slice_index, true, IfOk};
ghost use Rattle.std.specs.Char.{is_ascii_digit};
ghost use Rattle.php_lex_pieces.specs.Numbers as spec;

use crate::bytes::{Class, byte, run};

/// Why digits are no integer literal.
#[derive(Clone, Copy)]
pub enum NumberFault {
    /// A floating-point literal.
    Float,
    /// Above 9223372036854775807.
    TooLarge,
    /// An octal literal with a digit 8 or 9.
    NotOctal,
}

const GREATEST_INT: u64 = 9223372036854775807;

fn digit_value(b: u8) -> u64
    ensures value { result ≡ spec.digit_value b }
    ensures within { result < 256 }
{
    if b <= b'9' {
        b.saturating_sub(b'0') as u64
    } else if b <= b'F' {
        (b - 55) as u64
    } else {
        b.saturating_sub(87) as u64
    }
}

/// The number of these digits, where it is at most `limit`.
pub(crate) fn value(base: u64, digits: &[u8], limit: u64) -> Option<u64>
    requires base { 0 < base }
    requires limit { limit ≤ 2 ^ 63 }
    ensures { result ≡ spec.at_most limit (spec.value base digits.now) }
{
    let mut n: u64 = 0;
    for b in digits {
        let Some(shifted) = n.checked_mul(base) else {
            return None;
        };
        if shifted > limit {
            return None;
        }
        n = shifted + digit_value(*b);
    }
    if n <= limit { Some(n) } else { None }
}

fn is_hexadecimal(text: &[u8], at: usize) -> bool
    requires { at ≤ length text.now }
    ensures value { result ≡ spec.is_hexadecimal text.now at }
    ensures within { result ≡ true → at + 3 ≤ length text.now }
{
    let x = byte(text, at + 1);
    byte(text, at) == b'0' && (x == b'x' || x == b'X') && byte(text, at + 2).is_ascii_hexdigit()
}

fn is_binary(text: &[u8], at: usize) -> bool
    requires { at ≤ length text.now }
    ensures value { result ≡ spec.is_binary text.now at }
    ensures within { result ≡ true → at + 3 ≤ length text.now }
{
    let x = byte(text, at + 1);
    let digit = byte(text, at + 2);
    byte(text, at) == b'0' && (x == b'b' || x == b'B') && (digit == b'0' || digit == b'1')
}

fn goes_on_as_float(text: &[u8], at: usize) -> bool
    requires { at ≤ length text.now }
    ensures { result ≡ spec.goes_on_as_float text.now at }
{
    let b = byte(text, at);
    let next = byte(text, at + 1);
    b == b'.'
        || ((b == b'e' || b == b'E')
            && (next.is_ascii_digit()
                || ((next == b'+' || next == b'-') && byte(text, at + 2).is_ascii_digit())))
}

fn within_int(len: usize, base: u64, digits: &[u8]) -> Result<(usize, u64), NumberFault>
    requires { 0 < base }
    ensures value { result ≡ spec.within_int len (spec.value base digits.now) }
    ensures within { IfOk result (λ found. (found.0 ≡ len) × (found.1 < 2 ^ 63)) }
{
    match value(base, digits, GREATEST_INT) {
        Some(n) => Ok((len, n)),
        None => Err(NumberFault::TooLarge),
    }
}

fn decimal_or_octal(text: &[u8], len: usize) -> Result<(usize, u64), NumberFault>
    requires { len ≤ length text.now }
    ensures value { result ≡ spec.decimal_or_octal text.now len }
    ensures within { IfOk result (λ found. (found.0 ≡ len) × (found.1 < 2 ^ 63)) }
{
    if goes_on_as_float(text, len) {
        return Err(NumberFault::Float);
    }
    if byte(text, 0) != b'0' || len <= 1 {
        return within_int(len, 10, &text[..len]);
    }
    if run(Class::Octal, text, 0) < len {
        return Err(NumberFault::NotOctal);
    }
    within_int(len, 8, &text[..len])
}

/// The length of the number that begins with the digit at the front, and its value.
#[tactic(auto, unfolding(crate::specs::Numbers::number))]
pub fn number(text: &[u8]) -> Result<(usize, u64), NumberFault>
    requires { is_ascii_digit (slice_index text.now 0) ≡ true }
    ensures value { result ≡ spec.number text.now }
    ensures within { IfOk result (λ found. (0 < found.0) × (found.0 ≤ length text.now) × (found.1 < 2 ^ 63)) }
{
    if is_hexadecimal(text, 0) {
        let digits = run(Class::Hexadecimal, text, 2);
        within_int(2 + digits, 16, &text[2..2 + digits])
    } else if is_binary(text, 0) {
        let digits = run(Class::Binary, text, 2);
        within_int(2 + digits, 2, &text[2..2 + digits])
    } else {
        decimal_or_octal(text, run(Class::Digit, text, 0))
    }
}

fn sign_len(text: &[u8]) -> usize
    ensures value { result ≡ spec.sign_len text.now }
    ensures within { result ≤ length text.now }
{
    if byte(text, 0) == b'-' { 1 } else { 0 }
}

/// The length of the number that is the key of a simple part, with an optional `-`, or 0.
#[tactic(auto, unfolding(crate::specs::Numbers::key_len))]
pub fn key_len(text: &[u8]) -> usize
    ensures value { result ≡ spec.key_len text.now }
    ensures within { result ≤ length text.now }
    ensures signed { 0 < result → spec.sign_len text.now ≤ result }
{
    let at = sign_len(text);
    if is_hexadecimal(text, at) {
        at + 2 + run(Class::Hexadecimal, text, at + 2)
    } else if is_binary(text, at) {
        at + 2 + run(Class::Binary, text, at + 2)
    } else if byte(text, at).is_ascii_digit() {
        at + run(Class::Digit, text, at)
    } else {
        0
    }
}

fn is_canonical(text: &[u8], len: usize) -> bool
    ensures { result ≡ spec.is_canonical text.now len }
{
    let at = sign_len(text);
    !is_hexadecimal(text, at) && !is_binary(text, at) && (byte(text, at) != b'0' || len == 1)
}

/// The int that a key of that length is, where it is one.
#[tactic(auto, unfolding(crate::specs::Numbers::int_key))]
pub fn int_key(text: &[u8], len: usize) -> Option<i64>
    requires within { len ≤ length text.now }
    requires signed { spec.sign_len text.now ≤ len }
    ensures { result ≡ spec.int_key text.now len }
{
    if !is_canonical(text, len) {
        return None;
    }
    if byte(text, 0) == b'-' {
        let n = value(10, &text[1..len], GREATEST_INT + 1)?;
        Some(-(n.saturating_sub(1) as i64) - 1)
    } else {
        let n = value(10, &text[..len], GREATEST_INT)?;
        Some(n as i64)
    }
}
