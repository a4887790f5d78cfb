// Punctuators.

ghost use Rattle.std.specs.Prelude.{◌≡◌, ◌<◌, ◌≤◌, length, map, IfSome};
ghost use Rattle.php_lex_pieces.specs.Punctuators as spec;

use crate::bytes::byte;
use php_token::Punct;

type Row = (&'static [u8], Punct);

// Those that begin with one byte. Each one stands before those that it begins with.
const EQUALS: [Row; 4] = [
    (b"===", Punct::Identical),
    (b"==", Punct::EqualEqual),
    (b"=>", Punct::DoubleArrow),
    (b"=", Punct::Assign),
];

const BANGS: [Row; 3] = [
    (b"!==", Punct::NotIdentical),
    (b"!=", Punct::NotEqual),
    (b"!", Punct::Bang),
];

const LESSES: [Row; 6] = [
    (b"<=>", Punct::Spaceship),
    (b"<<=", Punct::ShiftLeftAssign),
    (b"<<", Punct::ShiftLeft),
    (b"<=", Punct::LessEqual),
    (b"<>", Punct::LessGreater),
    (b"<", Punct::Less),
];

const STARS: [Row; 4] = [
    (b"**=", Punct::PowerAssign),
    (b"**", Punct::StarStar),
    (b"*=", Punct::StarAssign),
    (b"*", Punct::Star),
];

const GREATERS: [Row; 4] = [
    (b">>=", Punct::ShiftRightAssign),
    (b">>", Punct::ShiftRight),
    (b">=", Punct::GreaterEqual),
    (b">", Punct::Greater),
];

const DOTS: [Row; 3] = [
    (b"...", Punct::Ellipsis),
    (b".=", Punct::DotAssign),
    (b".", Punct::Dot),
];

const MINUSES: [Row; 4] = [
    (b"->", Punct::Arrow),
    (b"--", Punct::MinusMinus),
    (b"-=", Punct::MinusAssign),
    (b"-", Punct::Minus),
];

const PLUSES: [Row; 3] = [
    (b"++", Punct::PlusPlus),
    (b"+=", Punct::PlusAssign),
    (b"+", Punct::Plus),
];

const AMPERSANDS: [Row; 3] = [
    (b"&&", Punct::AndAnd),
    (b"&=", Punct::AmpersandAssign),
    (b"&", Punct::Ampersand),
];

const BARS: [Row; 3] = [
    (b"||", Punct::BarBar),
    (b"|=", Punct::BarAssign),
    (b"|", Punct::Bar),
];

const SLASHES: [Row; 2] = [(b"/=", Punct::SlashAssign), (b"/", Punct::Slash)];

const QUESTIONS: [Row; 2] = [(b"??", Punct::QuestionQuestion), (b"?", Punct::Question)];

const COLONS: [Row; 2] = [(b"::", Punct::DoubleColon), (b":", Punct::Colon)];

const LEFT_BRACKET: [Row; 1] = [(b"[", Punct::LeftBracket)];

const RIGHT_BRACKET: [Row; 1] = [(b"]", Punct::RightBracket)];

const LEFT_PAREN: [Row; 1] = [(b"(", Punct::LeftParen)];

const RIGHT_PAREN: [Row; 1] = [(b")", Punct::RightParen)];

const LEFT_BRACE: [Row; 1] = [(b"{", Punct::LeftBrace)];

const RIGHT_BRACE: [Row; 1] = [(b"}", Punct::RightBrace)];

const SEMICOLON: [Row; 1] = [(b";", Punct::Semicolon)];

const COMMA: [Row; 1] = [(b",", Punct::Comma)];

const TILDE: [Row; 1] = [(b"~", Punct::Tilde)];

const PERCENTS: [Row; 2] = [(b"%=", Punct::PercentAssign), (b"%", Punct::Percent)];

const CARETS: [Row; 2] = [(b"^=", Punct::CaretAssign), (b"^", Punct::Caret)];

const AT: [Row; 1] = [(b"@", Punct::At)];

fn first_in(mut table: &[Row], text: &[u8]) -> Option<(Punct, usize)>
    ensures value { result ≡ spec.first_in (map (λ row. (row.0.now, row.1)) table.entry.now) text.now }
    ensures within { IfSome result (λ found. found.1 ≤ length text.now) }
{
    while let [row, rest @ ..] = table {
        if text.starts_with(row.0) {
            return Some((row.1, row.0.len()));
        }
        table = rest;
    }
    None
}

// Those with which the text may begin.
fn rows_for(text: &[u8]) -> &'static [Row]
    ensures { spec.first_in (map (λ row. (row.0.now, row.1)) result.now) text.now ≡ spec.punctuator text.now }
{
    let first = byte(text, 0);
    if first == b'=' {
        &EQUALS
    } else if first == b'!' {
        &BANGS
    } else if first == b'<' {
        &LESSES
    } else if first == b'*' {
        &STARS
    } else if first == b'>' {
        &GREATERS
    } else if first == b'.' {
        &DOTS
    } else if first == b'-' {
        &MINUSES
    } else if first == b'+' {
        &PLUSES
    } else if first == b'&' {
        &AMPERSANDS
    } else if first == b'|' {
        &BARS
    } else if first == b'/' {
        &SLASHES
    } else if first == b'?' {
        &QUESTIONS
    } else if first == b':' {
        &COLONS
    } else if first == b'[' {
        &LEFT_BRACKET
    } else if first == b']' {
        &RIGHT_BRACKET
    } else if first == b'(' {
        &LEFT_PAREN
    } else if first == b')' {
        &RIGHT_PAREN
    } else if first == b'{' {
        &LEFT_BRACE
    } else if first == b'}' {
        &RIGHT_BRACE
    } else if first == b';' {
        &SEMICOLON
    } else if first == b',' {
        &COMMA
    } else if first == b'~' {
        &TILDE
    } else if first == b'%' {
        &PERCENTS
    } else if first == b'^' {
        &CARETS
    } else if first == b'@' {
        &AT
    } else {
        &[]
    }
}

/// The longest punctuator with which the text begins, and its length.
pub fn punctuator(text: &[u8]) -> Option<(Punct, usize)>
    ensures value { result ≡ spec.punctuator text.now }
    ensures within { IfSome result (λ found. (0 < found.1) × (found.1 ≤ length text.now)) }
{
    first_in(rows_for(text), text)
}
