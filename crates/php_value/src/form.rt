// What a text is as a number.
ghost use Rattle.std.specs.Prelude.{◌≡◌, ℕ, ◌<◌, ◌≤◌, List, length, map, take, IfSome, IsTrue, IsFalse};
ghost use Rattle.php_value.specs.declared.form.ByteKind.{ByteKind};
ghost use Rattle.php_value.specs.Form.{behind_blanks, form_of, is_blank, is_number, kind_of, longest_prefix};
ghost use Rattle.php_value.specs.Reading.{ends_number, place_after};

use crate::decimal::written_int;

/// The numeric form of a text.
#[derive(Clone, Copy, Debug, Eq, PartialEq)]
pub enum Form {
    /// It does not begin with a number.
    None,
    /// It is this integer.
    Int(i64),
    /// It begins with this integer, and more bytes follow.
    LeadInt(i64),
    /// It is a number that is no integer of 64 bits.
    Float,
    /// It begins with such a number, and more bytes follow.
    LeadFloat,
}

// What a byte can be in a number.
#[derive(Clone, Copy, Debug, Eq, PartialEq)]
pub enum ByteKind {
    Blank,
    Sign,
    Digit,
    Point,
    Mark,
    Other,
}

// Space, tab, line feed, vertical tab, form feed and carriage return are blanks.
fn is_blank(byte: u8) -> bool
    ensures { result ≡ is_blank byte }
{
    matches!(byte, b' ' | 9..=13)
}

fn kind_of(byte: u8) -> ByteKind
    ensures { result ≡ kind_of byte }
{
    match byte {
        _ if is_blank(byte) => ByteKind::Blank,
        b'+' | b'-' => ByteKind::Sign,
        b'0'..=b'9' => ByteKind::Digit,
        b'.' => ByteKind::Point,
        b'e' | b'E' => ByteKind::Mark,
        _ => ByteKind::Other,
    }
}

// Where the reading of a number stands.
#[derive(Clone, Copy, Debug, Eq, PartialEq)]
pub enum Place {
    /// Nothing but blanks was read.
    Start,
    /// A sign was read.
    Signed,
    /// Digits were read, and no point.
    Whole,
    /// A point was read, and no digit.
    PointFirst,
    /// A point was read, and digits before it or behind it.
    Fraction,
    /// The mark of an exponent was read.
    Marked,
    /// The sign of an exponent was read.
    MarkedSigned,
    /// Digits of an exponent were read.
    Exponent,
}

impl Place {
    // Where a byte of this kind leads, if a number can go on with it.
    fn after(self, kind: ByteKind) -> Option<Place>
        ensures { result ≡ place_after self kind }
    {
        match (self, kind) {
            (Place::Start, ByteKind::Blank) => Some(Place::Start),
            (Place::Start, ByteKind::Sign) => Some(Place::Signed),
            (Place::Start | Place::Signed | Place::Whole, ByteKind::Digit) => Some(Place::Whole),
            (Place::Start | Place::Signed, ByteKind::Point) => Some(Place::PointFirst),
            (Place::Whole, ByteKind::Point) => Some(Place::Fraction),
            (Place::PointFirst | Place::Fraction, ByteKind::Digit) => Some(Place::Fraction),
            (Place::Whole | Place::Fraction, ByteKind::Mark) => Some(Place::Marked),
            (Place::Marked, ByteKind::Sign) => Some(Place::MarkedSigned),
            (Place::Marked | Place::MarkedSigned | Place::Exponent, ByteKind::Digit) => Some(
                Place::Exponent,
            ),
            _ => None,
        }
    }

    // What was read is a number.
    fn is_number(self) -> bool
        ensures { result ≡ ends_number self }
    {
        matches!(self, Place::Whole | Place::Fraction | Place::Exponent)
    }
}

/// The numeric form of a text: blanks, an optional sign and digits, maybe with a point or an exponent, make a number.
pub fn numeric_form(bytes: &[u8]) -> Form
    ensures { result ≡ form_of bytes.now }
{
    let Some(len) = number_len(bytes) else {
        return Form::None;
    };
    let number = written_int(behind_blanks(&bytes[..len]));
    let is_whole = len == bytes.len();
    match (number, is_whole) {
        (Some(i), true) => Form::Int(i),
        (Some(i), false) => Form::LeadInt(i),
        (None, true) => Form::Float,
        (None, false) => Form::LeadFloat,
    }
}

/// What decides the form of a text: the longest prefix that is a number is one, and no longer prefix is.
pub fn longest_number_decides()
    ensures number { (ks : List ByteKind) (n : ℕ) → longest_prefix is_number ks ≡ Some n
        → IsTrue (is_number (take n ks)) }
    ensures longest { (ks : List ByteKind) (n m : ℕ) → longest_prefix is_number ks ≡ Some n
        → n < m → m ≤ length ks → IsFalse (is_number (take m ks)) }
    ensures none { (ks : List ByteKind) (m : ℕ) → longest_prefix is_number ks ≡ None
        → m ≤ length ks → IsFalse (is_number (take m ks)) }
{}

// The length of the longest prefix that is a number.
fn number_len(bytes: &[u8]) -> Option<usize>
    ensures longest { result ≡ longest_prefix is_number (map kind_of bytes.now) }
    ensures within { IfSome result (λ n. n ≤ length bytes.now) }
{
    let mut place = Place::Start;
    let mut found = None;
    for (i, byte) in bytes.iter().enumerate() {
        match place.after(kind_of(*byte)) {
            Some(next) => place = next,
            None => return found,
        }
        if place.is_number() {
            found = Some(i + 1);
        }
    }
    found
}

// The bytes behind the leading blanks.
fn behind_blanks(bytes: &[u8]) -> &[u8]
    ensures { result.now ≡ behind_blanks bytes.now }
{
    let mut rest = bytes;
    while let [first, tail @ ..] = rest {
        if !is_blank(*first) {
            break;
        }
        rest = tail;
    }
    rest
}
