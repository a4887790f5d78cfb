// Methods, from the word `function` on.

ghost use Rattle.std.specs.Prelude.{◌≤◌, ◌<◌, length};
ghost use Rattle.php_parse_member.specs.Answer.{AnswersBody, AnswersMethod, AnswersMethodHead};

use crate::functions::{behind, reference};
use crate::read::{MethodHead, ReadBody, ReadMethod};
use php_parse_signature::read_signature;
use php_parse_simple::look::sees;
use php_parse_simple::role::Fixed;
use php_parse_statement::read_braced;
use php_reader::look::word_at;
use php_reader::{Reader, Stop};

/// A method up to its block, from the word `function` on.
fn method_head(reader: &Reader, at: usize) -> Result<MethodHead, Stop>
    requires here { at < length reader.now.tokens.now }
    requires deep { 1 ≤ reader.now.room }
    ensures { AnswersMethodHead reader.entry.now at result }
{
    let marked = reference(reader.tokens, behind(reader.tokens, at));
    let Some(name) = word_at(reader.alloc, reader.tokens, marked.next)? else {
        return Err(Stop::Syntax(marked.next));
    };
    let read = read_signature(reader, marked.next + 1)?;
    Ok(MethodHead {
        is_reference: marked.stands,
        name,
        next: read.next,
        signature: read.signature,
    })
}

/// The block of a method, or the `;` in its place.
fn method_body(reader: &Reader, at: usize) -> Result<ReadBody, Stop>
    requires within { at ≤ length reader.now.tokens.now }
    requires deep { 1 ≤ reader.now.room }
    ensures { AnswersBody reader.entry.now at result }
{
    if sees(reader.tokens, at, Fixed::Semicolon) {
        return Ok(ReadBody {
            body: None,
            next: at + 1,
        });
    }
    if !sees(reader.tokens, at, Fixed::LeftBrace) {
        return Err(Stop::Syntax(at));
    }
    let block = read_braced(reader, at + 1)?;
    Ok(ReadBody {
        body: Some(block.statements),
        next: block.next,
    })
}

/// The method whose word `function` stands at a place, with the levels of nesting that the reader has.
pub(crate) fn method_at(reader: &Reader, at: usize) -> Result<ReadMethod, Stop>
    requires here { at < length reader.now.tokens.now }
    requires deep { 1 ≤ reader.now.room }
    ensures { AnswersMethod reader.entry.now at result }
{
    let head = method_head(reader, at)?;
    let block = method_body(reader, head.next)?;
    Ok(ReadMethod {
        is_reference: head.is_reference,
        name: head.name,
        signature: head.signature,
        body: block.body,
        next: block.next,
    })
}
