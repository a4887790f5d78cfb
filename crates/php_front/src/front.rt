// The reading of a file: its tokens, its script, and whether that is legal.

ghost use Rattle.std.specs.Prelude.{◌≡◌, ◌≢◌, ◌≤◌, length, true, IfErr, IfOk};
ghost use Rattle.php_ast.specs.declaration.View.{script_view};
ghost use Rattle.php_flat.specs.Declarations.{is_flat_script};
ghost use Rattle.php_front.specs.declared.fail.ReadFail.TheVariants as fail;
ghost use Rattle.php_front.specs.Read.{IsRefused, IsScript};
ghost use Rattle.php_front.specs.Told.{of_check, of_lex, of_parse};

use crate::fail::ReadFail;
use php_lex::{LexFail, Tokens, lex};
use php_names::{Legal, NameFail, check};
use php_parse_script::parse;
use php_reader::ParseFail;
use php_reader::line::line_of;
use std::alloc::Global;

/// A legal script, and the tokens that spell it.
#[derive(Drop)]
pub struct Read<'a> {
    pub tokens: Tokens<'a>,
    pub script: Legal,
}

fn after_lex(fault: LexFail) -> ReadFail
    ensures { result ≡ of_lex fault }
{
    match fault {
        LexFail::Unclosed(_)
        | LexFail::BadByte(_)
        | LexFail::FloatLiteral(_)
        | LexFail::IntTooLarge(_)
        | LexFail::BadEscape(_) => ReadFail::Lex(fault),
        LexFail::NoMemory => ReadFail::NoMemory,
    }
}

fn after_parse(failure: ParseFail) -> ReadFail
    ensures { result ≡ of_parse failure }
{
    match failure {
        ParseFail::Syntax(_, _) => ReadFail::Parse(failure),
        ParseFail::TooDeep(_, _) => ReadFail::Parse(failure),
        ParseFail::NoMemory => ReadFail::NoMemory,
    }
}

/// The failure of a check, on the line of the token at its place.
fn after_check(tokens: &Tokens, failure: NameFail) -> ReadFail
    ensures { result ≡ of_check tokens.now failure }
{
    let told = match failure {
        NameFail::NotAPlace(_, at) => NameFail::NotAPlace(line_of(tokens, at), at),
        NameFail::BadBreak(_, at) => NameFail::BadBreak(line_of(tokens, at), at),
        NameFail::JumpFromFinally(_, at) => NameFail::JumpFromFinally(line_of(tokens, at), at),
        NameFail::Duplicate(_, at) => NameFail::Duplicate(line_of(tokens, at), at),
        NameFail::BadConstant(_, at) => NameFail::BadConstant(line_of(tokens, at), at),
        NameFail::BadList(_, at) => NameFail::BadList(line_of(tokens, at), at),
        NameFail::BadUse(_, at) => NameFail::BadUse(line_of(tokens, at), at),
        NameFail::TooManyNames(_, at) => NameFail::TooManyNames(line_of(tokens, at), at),
        NameFail::NoMemory => return ReadFail::NoMemory,
    };
    ReadFail::Name(told)
}

/// Reads the legal script that bytes are.
///
/// Else the first cause that is there: the first fault of the lexer, with its line; Syntax or TooDeep, with the place and
/// the line of a token; or the first fault of a script that the grammar lets pass, with the line and the place of its token.
/// NoMemory comes where memory could not be had and for no other cause.
pub fn read_script(alloc: Global, bytes: &[u8]) -> Result<Read, ReadFail>
    requires { length bytes.now ≤ 1048576 }
    ensures read { IfOk result (λ r. IsScript bytes.now r.tokens (script_view r.script)) }
    ensures flat { IfOk result (λ r. is_flat_script r.script ≡ true) }
    ensures refused { IfErr result (λ cause. cause ≢ fail.NoMemory → IsRefused bytes.now cause) }
{
    let tokens = match lex(alloc, bytes) {
        Ok(tokens) => tokens,
        Err(fault) => return Err(after_lex(fault)),
    };
    let script = match parse(alloc, &tokens) {
        Ok(script) => script,
        Err(failure) => return Err(after_parse(failure)),
    };
    match check(alloc, script) {
        Ok(script) => Ok(Read { tokens, script }),
        Err(failure) => Err(after_check(&tokens, failure)),
    }
}

/// Lets go of what was read. A caller that does so by this call has no code for the parts of trees.
pub fn let_go(read: Read) {
    let _read = read;
}
