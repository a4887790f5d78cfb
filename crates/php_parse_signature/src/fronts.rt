// What stands of a parameter before its value.

ghost use Rattle.std.specs.Prelude.{◌≤◌, length};
ghost use Rattle.php_ast.specs.Symbol.{punct};
ghost use Rattle.php_token.specs.declared.kind.Punct.TheVariants as mark;
ghost use Rattle.php_grammar.specs.declaration.SignatureMachine.{at_reference, at_variadic};
ghost use Rattle.php_parse_signature.specs.Answer.{AnswersDeclared, AnswersFront, AnswersName, SeesMark};

use crate::look::{part_at, sees_reference, sees_variadic};
use crate::part::Part;
use crate::read::{Front, Typed};
use crate::types::{type_at, type_kind_at};
use php_ast::Name;
use php_lex::Tokens;
use php_reader::look::name_at;
use php_reader::{Entry, Marked, Reader, Stop};

/// The type of a parameter, or none.
fn declared(reader: &Reader, at: usize) -> Result<Typed, Stop>
    requires within { at ≤ length reader.now.tokens.now }
    ensures { AnswersDeclared reader.entry.now.tokens.now at result }
{
    let Some(kind) = type_kind_at(reader.tokens, at) else {
        return Ok(Typed {
            declared: None,
            next: at,
        });
    };
    let Entry { item, next } = type_at(reader, at, kind)?;
    Ok(Typed {
        declared: Some(item),
        next,
    })
}

/// Whether `&` stands before a parameter.
fn reference(tokens: &Tokens, at: usize) -> Marked
    requires within { at ≤ length tokens.now }
    ensures { SeesMark at_reference (punct mark.Ampersand) tokens.now at result }
{
    if sees_reference(tokens, at) {
        return Marked {
            stands: true,
            next: at + 1,
        };
    }
    Marked {
        stands: false,
        next: at,
    }
}

/// Whether `...` stands before a parameter.
fn variadic(tokens: &Tokens, at: usize) -> Marked
    requires within { at ≤ length tokens.now }
    ensures { SeesMark at_variadic (punct mark.Ellipsis) tokens.now at result }
{
    if sees_variadic(tokens, at) {
        return Marked {
            stands: true,
            next: at + 1,
        };
    }
    Marked {
        stands: false,
        next: at,
    }
}

/// The name of a parameter.
fn name(reader: &Reader, at: usize) -> Result<Name, Stop>
    requires within { at ≤ length reader.now.tokens.now }
    ensures { AnswersName reader.entry.now.tokens.now at result }
{
    match part_at(reader.tokens, at) {
        Part::Variable => Ok(name_at(reader.alloc, reader.tokens, at)?),
        _ => Err(Stop::Syntax(at)),
    }
}

/// What stands of a parameter before its value: its type or none, `&`, `...`, and its name.
pub(crate) fn front(reader: &Reader, at: usize) -> Result<Front, Stop>
    requires within { at ≤ length reader.now.tokens.now }
    ensures { AnswersFront reader.entry.now.tokens.now at result }
{
    let typed = declared(reader, at)?;
    let reference = reference(reader.tokens, typed.next);
    let variadic = variadic(reader.tokens, reference.next);
    let name = name(reader, variadic.next)?;
    Ok(Front {
        declared: typed.declared,
        is_reference: reference.stands,
        is_variadic: variadic.stands,
        name,
        next: variadic.next + 1,
    })
}
