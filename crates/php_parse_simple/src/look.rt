// Looks at the token at a place.

ghost use Rattle.std.specs.Prelude.{◌≡◌, ◌≢◌, ◌<◌, true, false, [], drop, map, IfOk};
ghost use Rattle.php_token.specs.Token.{token_at};
ghost use Rattle.php_ast.specs.Symbol.{symbol};
ghost use Rattle.php_grammar.specs.statement.Role as role;
ghost use Rattle.php_grammar.specs.statement.Role.{as_word, behind, ending, is_bar, is_fixed, name_text, variable_text};
ghost use Rattle.php_grammar.specs.statement.Laws.{head_behind};
ghost use Rattle.php_parse_simple.specs.declared.role.After.TheVariants.{Other};
ghost use Rattle.php_reader.specs.Seen.{Shows, Stands, Tests, rest};
ghost use Rattle.php_parse_simple.specs.Answer.{ShowsName};
ghost use Rattle.php_parse_simple.specs.RoleView.{StandsBehind, StartsStatement, after_view, begun_view, fixed_view, is_variable_symbol, ShowsInt, ends_list};
ghost use Rattle.php_parse_simple.specs.Walk.{head_ending};

use crate::read::Number;
use crate::role::{
    After, Begun, Fixed, after_by, begun_by, ends_list, is_as, is_bar, is_fixed, is_name,
    is_variable,
};
use php_ast::Name;
use php_base::NoMemory;
use php_grammar::Closer;
use php_lex::{TokenKind, Tokens};
use php_reader::look::{ends_with, name_at};
use std::alloc::Global;

/// Whether there is a token at a place.
fn stands(tokens: &Tokens, at: usize) -> bool
    ensures yes { result ≡ true → Stands tokens.now at (symbol (token_at tokens.now at)) }
    ensures no { result ≡ false → rest tokens.now at ≡ [] }
{
    at < tokens.len()
}

/// What the token at a place begins where a statement is due.
pub fn begun_at(tokens: &Tokens, at: usize) -> Begun
    ensures { StartsStatement tokens.now at (begun_view result (token_at tokens.now at).text) }
{
    if !stands(tokens, at) {
        return Begun::Expression;
    }
    begun_by(tokens.kind(at))
}

/// What the token at a place does behind a statement.
pub fn after_at(tokens: &Tokens, at: usize) -> After
    ensures { StandsBehind tokens.now at (after_view result) }
{
    if !stands(tokens, at) {
        return After::Other;
    }
    after_by(tokens.kind(at))
}

/// Whether a token stands at a place that ends a list of statements.
pub fn list_ends(tokens: &Tokens, at: usize) -> bool
    ensures { result ≡ ends_list (head_behind (rest tokens.now at)) }
{
    ends_list(after_at(tokens, at))
}

/// Whether a token stands at a place that does this behind a statement.
pub fn sees_after(tokens: &Tokens, at: usize, wanted: After) -> bool
    requires { wanted ≢ Other }
    ensures yes { result ≡ true → Shows behind tokens.now at (after_view wanted) }
    ensures no { result ≡ false → head_behind (rest tokens.now at) ≢ after_view wanted }
{
    after_at(tokens, at) == wanted
}

/// Whether this token stands at a place.
pub fn sees(tokens: &Tokens, at: usize, fixed: Fixed) -> bool
    ensures { Tests (is_fixed (fixed_view fixed)) tokens.now at result }
{
    if !stands(tokens, at) {
        return false;
    }
    is_fixed(tokens.kind(at), fixed)
}

/// Whether this token stands at a place, behind an expression.
pub fn ends(tokens: &Tokens, at: usize, closer: Closer) -> bool
    ensures yes { result ≡ true → Shows ending tokens.now at (role.closer closer) }
    ensures no { result ≡ false → head_ending (rest tokens.now at) ≢ role.closer closer }
{
    ends_with(tokens, at, closer)
}

/// Whether `as` stands at a place, behind an expression.
pub fn sees_as(tokens: &Tokens, at: usize) -> bool
    ensures yes { result ≡ true → Shows ending tokens.now at as_word }
    ensures no { result ≡ false → head_ending (rest tokens.now at) ≢ as_word }
{
    if !stands(tokens, at) {
        return false;
    }
    is_as(tokens.kind(at))
}

/// Whether `|` stands at a place.
pub fn sees_bar(tokens: &Tokens, at: usize) -> bool
    ensures { Tests is_bar tokens.now at result }
{
    if !stands(tokens, at) {
        return false;
    }
    is_bar(tokens.kind(at))
}

/// Whether a variable stands at a place.
pub fn sees_variable(tokens: &Tokens, at: usize) -> bool
    ensures { Tests is_variable_symbol tokens.now at result }
{
    if !stands(tokens, at) {
        return false;
    }
    is_variable(tokens.kind(at))
}

/// The value of the integer at a place, if one stands there.
pub fn int_at(tokens: &Tokens, at: usize) -> Option<Number>
    ensures { ShowsInt tokens.now at result }
{
    if !stands(tokens, at) {
        return None;
    }
    match tokens.kind(at) {
        TokenKind::Int => Some(Number {
            value: tokens.int(at),
        }),
        _ => None,
    }
}

/// The name of the variable at a place, if one stands there. `NoMemory` comes for want of memory.
pub fn variable_at(alloc: Global, tokens: &Tokens, at: usize) -> Result<Option<Name>, NoMemory>
    ensures { IfOk result (λ n. ShowsName variable_text tokens.now at n) }
{
    if !stands(tokens, at) || !is_variable(tokens.kind(at)) {
        return Ok(None);
    }
    Ok(Some(name_at(alloc, tokens, at)?))
}

/// The name at a place, if one stands there that is no variable's. `NoMemory` comes for want of memory.
pub fn bare_name_at(alloc: Global, tokens: &Tokens, at: usize) -> Result<Option<Name>, NoMemory>
    ensures { IfOk result (λ n. ShowsName name_text tokens.now at n) }
{
    if !stands(tokens, at) || !is_name(tokens.kind(at)) {
        return Ok(None);
    }
    Ok(Some(name_at(alloc, tokens, at)?))
}
