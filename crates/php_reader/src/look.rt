// Looks at the token at a place.

ghost use Rattle.std.specs.Prelude.{◌≡◌, ◌≢◌, ◌<◌, ◌^◌, ◌+◌, ℕ, List, length, true, false, Some, None, [], map, drop, IfOk};
ghost use Rattle.php_ast.specs.Symbol.{symbol};
ghost use Rattle.php_token.specs.Token.{Token, token_at};
ghost use Rattle.php_ast.specs.expression.Proper.{may_name};
ghost use Rattle.php_grammar.specs.expression.Role.{closes, continuation, refers, spreads, is_ampersand, is_colon, is_left_brace, is_paren, is_right_paren};
ghost use Rattle.php_grammar.specs.expression.Laws.{head_continuation};
ghost use Rattle.php_ast.specs.expression.Placed.{notes_of};
ghost use Rattle.php_ast.specs.expression.View.{spot_view};
ghost use Rattle.php_reader.specs.Seen.{Stands, Shows, rest, Follows, Starts, Marks, SeesMark, Tests, IsNamed, ShowsWord, ShowsMember, Words, head_member, head_word, SeesClass, SeesMold};
ghost use Rattle.php_reader.specs.RoleView.{SeesOpening};
ghost use Rattle.php_token.specs.declared.kind.TokenKind.TheVariants.{Int, Variable};
ghost use Rattle.php_reader.specs.RoleView.{next_view, start_view, mark_view, class_kind_view, mold_view};

use crate::role::{
    ClassKind, Due, Mark, Mold, Next, Opening, Start, class_kind, due_of, mold_of, next_of,
    start_of,
};
use php_ast::{Member, Name, Spot, Word};
use php_base::NoMemory;
use php_grammar::Closer;
use php_lex::{Keyword, Punct, TokenKind, Tokens};
use php_value::Text;
use std::alloc::Global;

/// Whether there is a token at a place.
fn stands(tokens: &Tokens, at: usize) -> bool
    ensures yes { result ≡ true → Stands tokens.now at (symbol (token_at tokens.now at)) }
    ensures no { result ≡ false → rest tokens.now at ≡ [] }
{
    at < tokens.len()
}

/// The value of an integer, and 0 of another token.
fn value_at(tokens: &Tokens, at: usize, kind: TokenKind) -> i64
    requires here { at < length tokens.now }
    requires kind { kind ≡ (token_at tokens.now at).kind }
    ensures { kind ≡ Int → result ≡ (token_at tokens.now at).int }
{
    match kind {
        TokenKind::Int => tokens.int(at),
        _ => 0,
    }
}

/// What the token at a place begins where an expression is due.
pub fn start_at(tokens: &Tokens, at: usize) -> Start
    ensures { Starts tokens.now at (start_view result (token_at tokens.now at).text) }
{
    if !stands(tokens, at) {
        return Start::Nothing;
    }
    let kind = tokens.kind(at);
    start_of(kind, value_at(tokens, at, kind))
}

/// What the token at a place is where an expression is due, or a mark before it or in its place.
pub fn due_at(tokens: &Tokens, at: usize) -> Due
    ensures starts { Starts tokens.now at (start_view result.start (token_at tokens.now at).text) }
    ensures marks { Marks tokens.now at (mark_view result.mark) }
{
    if !stands(tokens, at) {
        return Due {
            start: Start::Nothing,
            mark: Mark::Begins,
        };
    }
    let kind = tokens.kind(at);
    due_of(kind, value_at(tokens, at, kind))
}

/// What the token at a place begins where only an operand may stand.
pub fn opening_at(tokens: &Tokens, at: usize) -> Option<Opening>
    ensures { SeesOpening tokens.now at result }
{
    match start_at(tokens, at) {
        Start::Operand(opening) => Some(opening),
        _ => None,
    }
}

/// What the token at a place does behind an expression.
pub fn next_at(tokens: &Tokens, at: usize) -> Next
    ensures { Follows tokens.now at (next_view result) }
{
    if !stands(tokens, at) {
        return Next::Neither;
    }
    next_of(tokens.kind(at))
}

/// Whether a token with this mark is `...`.
pub fn is_spread(mark: Mark) -> bool
    ensures { (tokens : List Token) (at : ℕ) → Marks tokens at (mark_view mark) → SeesMark spreads tokens at result }
{
    matches!(mark, Mark::Spread)
}

/// Whether a token with this mark is `&`.
pub fn is_reference(mark: Mark) -> bool
    ensures { (tokens : List Token) (at : ℕ) → Marks tokens at (mark_view mark) → SeesMark refers tokens at result }
{
    matches!(mark, Mark::Reference)
}

/// Whether a token with this mark is the one that ends what stands before it so.
pub fn ended_by(mark: Mark, closer: Closer) -> bool
    ensures yes { result ≡ true → (tokens : List Token) (at : ℕ) → Marks tokens at (mark_view mark) → Shows continuation tokens at (closes closer) }
    ensures no { result ≡ false → (tokens : List Token) (at : ℕ) → Marks tokens at (mark_view mark) → head_continuation (rest tokens at) ≢ closes closer }
{
    match mark {
        Mark::Ends(found) => found == closer,
        _ => false,
    }
}

/// Whether a token that does this behind an expression is the one that ends it so.
pub fn closed_by(behind: Next, closer: Closer) -> bool
    ensures yes { result ≡ true → (tokens : List Token) (at : ℕ) → Follows tokens at (next_view behind) → Shows continuation tokens at (closes closer) }
    ensures no { result ≡ false → (tokens : List Token) (at : ℕ) → Follows tokens at (next_view behind) → head_continuation (rest tokens at) ≢ closes closer }
{
    match behind {
        Next::Closes(found) => found == closer,
        _ => false,
    }
}

/// Whether this token, which ends an expression, stands at a place.
pub fn ends_with(tokens: &Tokens, at: usize, closer: Closer) -> bool
    ensures yes { result ≡ true → Shows continuation tokens.now at (closes closer) }
    ensures no { result ≡ false → head_continuation (rest tokens.now at) ≢ closes closer }
{
    closed_by(next_at(tokens, at), closer)
}

/// Whether `(` stands at a place.
pub fn sees_paren(tokens: &Tokens, at: usize) -> bool
    ensures { Tests is_paren tokens.now at result }
{
    stands(tokens, at) && matches!(tokens.kind(at), TokenKind::Punct(Punct::LeftParen))
}

/// Whether `)` stands at a place.
pub fn sees_right_paren(tokens: &Tokens, at: usize) -> bool
    ensures { Tests is_right_paren tokens.now at result }
{
    stands(tokens, at) && matches!(tokens.kind(at), TokenKind::Punct(Punct::RightParen))
}

/// Whether `{` stands at a place.
pub fn sees_left_brace(tokens: &Tokens, at: usize) -> bool
    ensures { Tests is_left_brace tokens.now at result }
{
    stands(tokens, at) && matches!(tokens.kind(at), TokenKind::Punct(Punct::LeftBrace))
}

/// Whether `&` stands at a place.
pub fn sees_ampersand(tokens: &Tokens, at: usize) -> bool
    ensures { Tests is_ampersand tokens.now at result }
{
    stands(tokens, at) && matches!(tokens.kind(at), TokenKind::Punct(Punct::Ampersand))
}

/// Whether `:` stands at a place.
pub fn sees_colon(tokens: &Tokens, at: usize) -> bool
    ensures { Tests is_colon tokens.now at result }
{
    stands(tokens, at) && matches!(tokens.kind(at), TokenKind::Punct(Punct::Colon))
}

// ---- what a tree keeps of a token

/// The place and the line of the token at a place.
pub fn spot(tokens: &Tokens, at: usize) -> Spot
    requires { at < length tokens.now }
    ensures { spot_view result ≡ (notes_of tokens.now).token at }
{
    Spot {
        place: at,
        line: tokens.line(at),
    }
}

/// A copy of the text of the token at a place. `NoMemory` comes for want of memory.
pub fn text_at(alloc: Global, tokens: &Tokens, at: usize) -> Result<Text, NoMemory>
    requires { at < length tokens.now }
    ensures { IfOk result (λ t. t ≡ (token_at tokens.now at).text) }
{
    Text::from_bytes(alloc, tokens.text(at))
}

/// The text of the token at a place, with its spot. `NoMemory` comes for want of memory.
pub fn name_at(alloc: Global, tokens: &Tokens, at: usize) -> Result<Name, NoMemory>
    requires { at < length tokens.now }
    ensures { IfOk result (λ n. IsNamed tokens.now at n) }
{
    Ok(Name {
        spot: spot(tokens, at),
        text: text_at(alloc, tokens, at)?,
    })
}

/// Whether a keyword may name a member: `yield from` is a token of its own.
fn names_member(keyword: Keyword) -> bool
    ensures { result ≡ may_name keyword }
{
    match keyword {
        Keyword::YieldFrom => false,
        _ => true,
    }
}

/// The keyword that a word of a member is spelled as, where the token is a name or a keyword that may name one.
fn wording(kind: TokenKind) -> Option<Option<Keyword>>
    ensures { Words kind result }
{
    match kind {
        TokenKind::Name => Some(None),
        TokenKind::Keyword(keyword) => {
            if !names_member(keyword) {
                return None;
            }
            Some(Some(keyword))
        }
        _ => None,
    }
}

/// The name of a member that is no variable, if one stands at a place. `NoMemory` comes for want of memory.
pub fn word_at(alloc: Global, tokens: &Tokens, at: usize) -> Result<Option<Word>, NoMemory>
    ensures { IfOk result (λ w. ShowsWord tokens.now at w) }
{
    if !stands(tokens, at) {
        return Ok(None);
    }
    let Some(keyword) = wording(tokens.kind(at)) else {
        return Ok(None);
    };
    Ok(Some(Word {
        spot: spot(tokens, at),
        text: text_at(alloc, tokens, at)?,
        keyword,
    }))
}

fn sees_variable(tokens: &Tokens, at: usize) -> bool
    ensures yes { result ≡ true → Stands tokens.now at (symbol (token_at tokens.now at)) × ((token_at tokens.now at).kind ≡ Variable) }
    ensures no { result ≡ false → head_member (rest tokens.now at) ≡ head_word (rest tokens.now at) }
{
    stands(tokens, at) && tokens.kind(at) == TokenKind::Variable
}

/// The name of a member, if one stands at a place. `NoMemory` comes for want of memory.
pub fn member_at(alloc: Global, tokens: &Tokens, at: usize) -> Result<Option<Member>, NoMemory>
    ensures { IfOk result (λ m. ShowsMember tokens.now at m) }
{
    if sees_variable(tokens, at) {
        return Ok(Some(Member::Variable(name_at(alloc, tokens, at)?)));
    }
    match word_at(alloc, tokens, at)? {
        Some(word) => Ok(Some(Member::Word(word))),
        None => Ok(None),
    }
}

/// What the class behind `new` begins with.
pub fn class_at(tokens: &Tokens, at: usize) -> Option<ClassKind>
    ensures { SeesClass tokens.now at (class_kind_view result (token_at tokens.now at).text) }
{
    if !stands(tokens, at) {
        return None;
    }
    class_kind(tokens.kind(at))
}

/// What stands between the quotes of a text with parts.
pub fn mold_at(tokens: &Tokens, at: usize) -> Mold
    ensures { SeesMold tokens.now at (mold_view result (token_at tokens.now at).text) }
{
    if !stands(tokens, at) {
        return Mold::Other;
    }
    mold_of(tokens.kind(at))
}
