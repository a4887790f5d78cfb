// Names in the heading of a class, an interface or a trait.

ghost use Rattle.std.specs.Prelude.{◌≡◌, ◌≤◌, Option, length};
ghost use Rattle.php_ast.specs.statement.Tree as tree;
ghost use Rattle.php_grammar.specs.expression.Machine.{Nothing};
ghost use Rattle.php_grammar.specs.declaration.ScriptMachine.{ClassWords};
ghost use Rattle.php_parse_script.specs.Owner.{of_class, of_interface};
ghost use Rattle.php_parse_script.specs.Answer.{AnswersListing, AnswersName, AnswersNames, AnswersParent};

use crate::look::{sees_comma, sees_extends, sees_implements};
use crate::read::ReadParent;
use php_ast::Name;
use php_parse_simple::look::bare_name_at;
use php_reader::{Listed, Reader, Stop};
use sqlite_items::Items;

/// The name at a place.
pub(crate) fn name(reader: &Reader, at: usize) -> Result<Name, Stop>
    requires { at ≤ length reader.now.tokens.now }
    ensures { AnswersName reader.entry.now at result }
{
    let Some(name) = bare_name_at(reader.alloc, reader.tokens, at)? else {
        return Err(Stop::Syntax(at));
    };
    Ok(name)
}

/// The parent of a class with its `extends`, or none.
pub(crate) fn parent(reader: &Reader, at: usize) -> Result<ReadParent, Stop>
    requires { at ≤ length reader.now.tokens.now }
    ensures { AnswersParent reader.entry.now at result }
{
    if !sees_extends(reader.tokens, at) {
        return Ok(ReadParent {
            parent: None,
            next: at,
        });
    }
    let place = at + 1;
    let name = name(reader, place)?;
    Ok(ReadParent {
        parent: Some(name),
        next: place + 1,
    })
}

/// One name or more, between commas.
fn names(reader: &Reader, at: usize) -> Result<Listed<Name>, Stop>
    requires { at ≤ length reader.now.tokens.now }
    ensures { AnswersNames reader.entry.now at result }
{
    let mut names = Items::new(reader.alloc);
    let mut next = at;
    loop {
        let name = name(reader, next)?;
        names.push(name)?;
        let behind = next + 1;
        if !sees_comma(reader.tokens, behind) {
            return Ok(Listed {
                items: names,
                next: behind,
            });
        }
        next = behind + 1;
    }
}

/// The interfaces of a class with their `implements`, or none.
pub(crate) fn interfaces(reader: &Reader, at: usize) -> Result<Listed<Name>, Stop>
    requires { at ≤ length reader.now.tokens.now }
    ensures { (words : ClassWords) (n : tree.Name Nothing) (parent : Option (tree.Name Nothing)) → AnswersListing (of_class words n parent) reader.entry.now at result }
{
    if !sees_implements(reader.tokens, at) {
        return Ok(Listed {
            items: Items::new(reader.alloc),
            next: at,
        });
    }
    names(reader, at + 1)
}

/// The parents of an interface with their `extends`, or none.
pub(crate) fn parents(reader: &Reader, at: usize) -> Result<Listed<Name>, Stop>
    requires { at ≤ length reader.now.tokens.now }
    ensures { (n : tree.Name Nothing) → AnswersListing (of_interface n) reader.entry.now at result }
{
    if !sees_extends(reader.tokens, at) {
        return Ok(Listed {
            items: Items::new(reader.alloc),
            next: at,
        });
    }
    names(reader, at + 1)
}
