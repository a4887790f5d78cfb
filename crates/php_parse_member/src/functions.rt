// Functions, from the word `function` on.

ghost use Rattle.std.specs.Prelude.{◌≡◌, ◌≤◌, ◌<◌, ◌+◌, length, true};
ghost use Rattle.php_ast.specs.declaration.View.{function_view, signature_view};
ghost use Rattle.php_ast.specs.expression.View.{spot_view};
ghost use Rattle.php_ast.specs.statement.View.{name_view, statements_view};
ghost use Rattle.php_flat.specs.Declarations.{is_flat_function};
ghost use Rattle.php_flat.specs.Statements.{are_flat_statements};
ghost use Rattle.php_parse_member.specs.Answer.{AnswersFunction, AnswersFunctionHead, SeesReference};

use crate::read::{FunctionHead, ReadFunction};
use php_ast::{FunctionDecl, Spot, Stmt};
use php_lex::Tokens;
use php_parse_signature::read_signature;
use php_parse_simple::look::{bare_name_at, sees};
use php_parse_simple::role::Fixed;
use php_parse_statement::read_braced;
use php_reader::look::{sees_ampersand, spot};
use php_reader::{Marked, Reader, Stop};
use sqlite_items::Items;

/// Whether `&` stands before a name.
pub(crate) fn reference(tokens: &Tokens, at: usize) -> Marked
    requires within { at ≤ length tokens.now }
    ensures { SeesReference tokens.now at result }
{
    if sees_ampersand(tokens, at) {
        return Marked {
            stands: true,
            next: at + 1,
        };
    }
    Marked {
        stands: false,
        next: at,
    }
}

/// The place behind a token.
pub(crate) fn behind(tokens: &Tokens, at: usize) -> usize
    requires { at < length tokens.now }
    ensures { result ≡ at + 1 }
{
    let count = tokens.len();
    prove!(at < count);
    at + 1
}

/// A function up to its block, from the word `function` on.
fn function_head(reader: &Reader, at: usize) -> Result<FunctionHead, Stop>
    requires here { at < length reader.now.tokens.now }
    requires deep { 1 ≤ reader.now.room }
    ensures { AnswersFunctionHead reader.entry.now at result }
{
    let marked = reference(reader.tokens, behind(reader.tokens, at));
    let Some(name) = bare_name_at(reader.alloc, reader.tokens, marked.next)? else {
        return Err(Stop::Syntax(marked.next));
    };
    let read = read_signature(reader, marked.next + 1)?;
    Ok(FunctionHead {
        is_reference: marked.stands,
        name,
        next: read.next,
        signature: read.signature,
    })
}

/// A function from its parts.
fn function_decl(spot: Spot, head: FunctionHead, body: Items<Stmt>) -> FunctionDecl
    requires { are_flat_statements body ≡ true }
    ensures shown { function_view result ≡ record {
      note = spot_view spot;
      is_reference = head.is_reference;
      name = name_view head.name;
      signature = signature_view head.signature;
      body = statements_view body;
    } }
    ensures flat { is_flat_function result ≡ true }
{
    FunctionDecl {
        spot,
        is_reference: head.is_reference,
        name: head.name,
        signature: head.signature,
        body,
    }
}

/// The function whose word `function` stands at a place, with the levels of nesting that the reader has: as many tokens are
/// read as begin one. The place of the function is that of the word.
pub fn read_function(reader: &Reader, at: usize) -> Result<ReadFunction, Stop>
    requires here { at < length reader.now.tokens.now }
    requires deep { 1 ≤ reader.now.room }
    ensures { AnswersFunction reader.entry.now at result }
{
    let head = function_head(reader, at)?;
    if !sees(reader.tokens, head.next, Fixed::LeftBrace) {
        return Err(Stop::Syntax(head.next));
    }
    let block = read_braced(reader, head.next + 1)?;
    Ok(ReadFunction {
        next: block.next,
        function: function_decl(spot(reader.tokens, at), head, block.statements),
    })
}
