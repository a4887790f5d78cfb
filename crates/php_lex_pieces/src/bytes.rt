// Bytes of a text, and runs of bytes of one class.

ghost use Rattle.std.specs.Prelude.{◌≡◌, ◌<◌, ◌^◌, ◌≤◌, ◌+◌, length, slice_index, true};
ghost use Rattle.php_lex_pieces.specs.Bytes as spec;

/// A class of bytes.
#[derive(Clone, Copy)]
pub enum Class {
    /// Space, tab, LF and CR.
    Blank,
    /// Space and tab.
    Gap,
    /// What a name goes on with.
    Name,
    /// Decimal digits.
    Digit,
    /// Octal digits.
    Octal,
    /// Hexadecimal digits, in either letter case.
    Hexadecimal,
    /// `0` and `1`.
    Binary,
}

/// Whether the byte is a space, a tab, LF or CR.
pub fn is_blank(b: u8) -> bool
    ensures { result ≡ spec.is_blank b }
{
    matches!(b, b' ' | b'\t' | b'\n' | b'\r')
}

/// Whether a name may begin with the byte.
pub fn is_name_start(b: u8) -> bool
    ensures { result ≡ spec.is_name_start b }
{
    b.is_ascii_alphabetic() || b == b'_' || 128 <= b
}

fn is_in(class: Class, b: u8) -> bool
    ensures { result ≡ spec.is_in class b }
{
    match class {
        Class::Blank => is_blank(b),
        Class::Gap => b == b' ' || b == b'\t',
        Class::Name => is_name_start(b) || b.is_ascii_digit(),
        Class::Digit => b.is_ascii_digit(),
        Class::Octal => b'0' <= b && b <= b'7',
        Class::Hexadecimal => b.is_ascii_hexdigit(),
        Class::Binary => b == b'0' || b == b'1',
    }
}

/// The byte at a place, or 0 past the end.
pub fn byte(text: &[u8], at: usize) -> u8
    ensures { result ≡ slice_index text.now at }
{
    if at < text.len() { text[at] } else { 0 }
}

/// How many bytes of the class stand at `at`, one directly after the other.
pub fn run(class: Class, text: &[u8], at: usize) -> usize
    ensures value { result ≡ spec.run (spec.is_in class) text.now at }
    ensures within { at ≤ length text.now → at + result ≤ length text.now }
    ensures moves { spec.is_in class (slice_index text.now at) ≡ true → 0 < result }
{
    let mut end = at;
    while end < text.len() && is_in(class, text[end]) {
        end += 1;
    }
    end - at
}

/// The length of the name that begins at `at`, or 0.
pub fn name_len(text: &[u8], at: usize) -> usize
    ensures value { result ≡ spec.name_len text.now at }
    ensures within { at ≤ length text.now → at + result ≤ length text.now }
    ensures moves { spec.is_name_start (slice_index text.now at) ≡ true → 0 < result }
{
    if is_name_start(byte(text, at)) {
        run(Class::Name, text, at)
    } else {
        0
    }
}

/// The length of the LF, CR LF or CR at `at`, or 0.
pub fn newline_len(text: &[u8], at: usize) -> usize
    requires { at + 1 < 2 ^ 64 }
    ensures value { result ≡ spec.newline_len text.now at }
    ensures within { at ≤ length text.now → at + result ≤ length text.now }
{
    match byte(text, at) {
        b'\n' => 1,
        b'\r' if byte(text, at + 1) == b'\n' => 2,
        b'\r' => 1,
        _ => 0,
    }
}

// The length of the LF or CR LF at `at`, or 0.
pub(crate) fn line_end_len(text: &[u8], at: usize) -> usize
    requires { at + 1 < 2 ^ 64 }
    ensures value { result ≡ spec.line_end_len text.now at }
    ensures within { at ≤ length text.now → at + result ≤ length text.now }
{
    match byte(text, at) {
        b'\n' => 1,
        b'\r' if byte(text, at + 1) == b'\n' => 2,
        _ => 0,
    }
}
