// Types of parameters and of results.

ghost use Rattle.std.specs.Prelude.{◌≡◌, ◌≤◌, ◌+◌, length, IfOk};
ghost use Rattle.php_token.specs.Token.{token_at};
ghost use Rattle.php_ast.specs.expression.Placed.{notes_of};
ghost use Rattle.php_ast.specs.declaration.Placed.{noted_base};
ghost use Rattle.php_ast.specs.declaration.View.{base_view};
ghost use Rattle.php_grammar.specs.declaration.SignatureMachine.{at_base, at_question, param_role};
ghost use Rattle.php_reader.specs.Seen.{Shows};
ghost use Rattle.php_parse_signature.specs.Answer.{AnswersBase, AnswersType, SeesType};
ghost use Rattle.php_parse_signature.specs.PartView.{base_of};

use crate::look::part_at;
use crate::part::{BaseKind, Part};
use php_ast::{BaseType, Type};
use php_base::NoMemory;
use php_lex::Tokens;
use php_reader::look::name_at;
use php_reader::{Entry, Reader, Stop};

/// What a type begins with.
#[derive(Clone, Copy)]
pub(crate) enum TypeKind {
    /// `?`
    Nullable,
    Plain(BaseKind),
}

/// The type that begins at a place.
pub(crate) fn type_kind_at(tokens: &Tokens, at: usize) -> Option<TypeKind>
    ensures { SeesType tokens.now at result }
{
    match part_at(tokens, at) {
        Part::Question => Some(TypeKind::Nullable),
        Part::Base(kind) => Some(TypeKind::Plain(kind)),
        _ => None,
    }
}

/// The type without a `?` at a place. `NoMemory` comes for want of memory.
fn base_at(reader: &Reader, at: usize, kind: BaseKind) -> Result<BaseType, NoMemory>
    requires here { Shows param_role reader.now.tokens.now at (at_base (base_of kind (token_at reader.now.tokens.now at).text)) }
    ensures { IfOk result (λ b. base_view b ≡ noted_base (notes_of reader.entry.now.tokens.now) at (base_of kind (token_at reader.entry.now.tokens.now at).text)) }
{
    match kind {
        BaseKind::Name => Ok(BaseType::Name(name_at(reader.alloc, reader.tokens, at)?)),
        BaseKind::Array => Ok(BaseType::Array),
        BaseKind::Callable => Ok(BaseType::Callable),
    }
}

/// The type without a `?` that is due at a place.
fn base(reader: &Reader, at: usize) -> Result<BaseType, Stop>
    requires within { at ≤ length reader.now.tokens.now }
    ensures { AnswersBase reader.entry.now.tokens.now at result }
{
    match part_at(reader.tokens, at) {
        Part::Base(kind) => Ok(base_at(reader, at, kind)?),
        _ => Err(Stop::Syntax(at)),
    }
}

/// The type at a place, which begins as `kind` says.
pub(crate) fn type_at(reader: &Reader, at: usize, kind: TypeKind) -> Result<Entry<Type>, Stop>
    requires here { SeesType reader.now.tokens.now at (Some kind) }
    ensures { AnswersType reader.entry.now.tokens.now at result }
{
    match kind {
        TypeKind::Nullable => {
            let place = at + 1;
            Ok(Entry {
                item: Type {
                    is_nullable: true,
                    base: base(reader, place)?,
                },
                next: place + 1,
            })
        }
        TypeKind::Plain(kind) => Ok(Entry {
            item: Type {
                is_nullable: false,
                base: base_at(reader, at, kind)?,
            },
            next: at + 1,
        }),
    }
}
