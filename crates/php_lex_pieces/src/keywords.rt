// Keywords.

ghost use Rattle.std.specs.Prelude.{◌≡◌, map};
ghost use Rattle.std.specs.Str.{str_eq_ignore_ascii_case};
ghost use Rattle.php_lex_pieces.specs.Words.{keywords, look_up};

use php_token::Keyword;

type Row = (&'static [u8], Keyword);

// Those of one length.
const OF_TWO: [Row; 4] = [
    (b"as", Keyword::As),
    (b"do", Keyword::Do),
    (b"if", Keyword::If),
    (b"or", Keyword::Or),
];

const OF_THREE: [Row; 8] = [
    (b"and", Keyword::And),
    (b"die", Keyword::Exit),
    (b"for", Keyword::For),
    (b"new", Keyword::New),
    (b"try", Keyword::Try),
    (b"use", Keyword::Use),
    (b"var", Keyword::Var),
    (b"xor", Keyword::Xor),
];

const OF_FOUR: [Row; 7] = [
    (b"case", Keyword::Case),
    (b"echo", Keyword::Echo),
    (b"else", Keyword::Else),
    (b"eval", Keyword::Eval),
    (b"exit", Keyword::Exit),
    (b"goto", Keyword::Goto),
    (b"list", Keyword::List),
];

const OF_FIVE: [Row; 16] = [
    (b"array", Keyword::Array),
    (b"break", Keyword::Break),
    (b"catch", Keyword::Catch),
    (b"class", Keyword::Class),
    (b"clone", Keyword::Clone),
    (b"const", Keyword::Const),
    (b"empty", Keyword::Empty),
    (b"endif", Keyword::EndIf),
    (b"final", Keyword::Final),
    (b"isset", Keyword::IsSet),
    (b"print", Keyword::Print),
    (b"throw", Keyword::Throw),
    (b"trait", Keyword::Trait),
    (b"unset", Keyword::Unset),
    (b"while", Keyword::While),
    (b"yield", Keyword::Yield),
];

const OF_SIX: [Row; 7] = [
    (b"elseif", Keyword::ElseIf),
    (b"endfor", Keyword::EndFor),
    (b"global", Keyword::Global),
    (b"public", Keyword::Public),
    (b"return", Keyword::Return),
    (b"static", Keyword::Static),
    (b"switch", Keyword::Switch),
];

const OF_SEVEN: [Row; 9] = [
    (b"declare", Keyword::Declare),
    (b"default", Keyword::Default),
    (b"extends", Keyword::Extends),
    (b"finally", Keyword::Finally),
    (b"foreach", Keyword::Foreach),
    (b"include", Keyword::Include),
    (b"private", Keyword::Private),
    (b"require", Keyword::Require),
    (b"__DIR__", Keyword::DirectoryName),
];

const OF_EIGHT: [Row; 7] = [
    (b"abstract", Keyword::Abstract),
    (b"callable", Keyword::Callable),
    (b"continue", Keyword::Continue),
    (b"endwhile", Keyword::EndWhile),
    (b"function", Keyword::Function),
    (b"__LINE__", Keyword::LineNumber),
    (b"__FILE__", Keyword::FileName),
];

const OF_NINE: [Row; 7] = [
    (b"endswitch", Keyword::EndSwitch),
    (b"insteadof", Keyword::InsteadOf),
    (b"interface", Keyword::Interface),
    (b"namespace", Keyword::Namespace),
    (b"protected", Keyword::Protected),
    (b"__CLASS__", Keyword::ClassName),
    (b"__TRAIT__", Keyword::TraitName),
];

const OF_TEN: [Row; 5] = [
    (b"endforeach", Keyword::EndForeach),
    (b"enddeclare", Keyword::EndDeclare),
    (b"implements", Keyword::Implements),
    (b"instanceof", Keyword::InstanceOf),
    (b"__METHOD__", Keyword::MethodName),
];

const OF_TWELVE: [Row; 3] = [
    (b"include_once", Keyword::IncludeOnce),
    (b"require_once", Keyword::RequireOnce),
    (b"__FUNCTION__", Keyword::FunctionName),
];

const OF_THIRTEEN: [Row; 1] = [(b"__NAMESPACE__", Keyword::NamespaceName)];

const OF_FIFTEEN: [Row; 1] = [(b"__halt_compiler", Keyword::HaltCompiler)];

// By their length; the last place stands for all greater ones.
const BY_LENGTH: &[&[Row]] = &[
    &[],
    &[],
    &OF_TWO,
    &OF_THREE,
    &OF_FOUR,
    &OF_FIVE,
    &OF_SIX,
    &OF_SEVEN,
    &OF_EIGHT,
    &OF_NINE,
    &OF_TEN,
    &[],
    &OF_TWELVE,
    &OF_THIRTEEN,
    &[],
    &OF_FIFTEEN,
    &[],
];

/// Whether the word is the expected one, in any letter case.
pub(crate) fn is_word(word: &[u8], expected: &[u8]) -> bool
    ensures { result ≡ str_eq_ignore_ascii_case expected.now word.now }
{
    expected.eq_ignore_ascii_case(word)
}

fn keyword_in(mut table: &[Row], word: &[u8]) -> Option<Keyword>
    ensures { result ≡ look_up (map (λ row. (row.0.now, row.1)) table.entry.now) word.now }
{
    while let [row, rest @ ..] = table {
        if is_word(word, row.0) {
            return Some(row.1);
        }
        table = rest;
    }
    None
}

// Those that have the length of the word.
fn rows_for(word: &[u8]) -> &'static [Row]
    ensures { look_up (map (λ row. (row.0.now, row.1)) result.now) word.now ≡ look_up keywords word.now }
{
    BY_LENGTH[word.len().min(16)]
}

/// The keyword that the word is, in any letter case.
pub(crate) fn keyword(word: &[u8]) -> Option<Keyword>
    ensures { result ≡ look_up keywords word.now }
{
    keyword_in(rows_for(word), word)
}
