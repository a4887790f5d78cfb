// Duplicates in a script.

ghost use Rattle.std.specs.Prelude.{◌≡◌, IfOk, map};
ghost use Rattle.php_ast.specs.declaration.View.{item_view, member_view, script_view};
ghost use Rattle.php_ast.specs.statement.View.{sequence};
ghost use Rattle.php_legality.specs.Lists.{elements};
ghost use Rattle.php_duplicates.specs.Met as spec;
ghost use Rattle.php_duplicates.specs.Over.{over};
ghost use Rattle.php_duplicates.specs.Promise.{FirstDuplicate};

use crate::declaration::{
    constants_of_items, methods_of_items, params_of_items, properties_of_items, repeated_classes,
    repeated_functions,
};
use crate::taken::{Taken, taken_classes, taken_functions};
use crate::walk::{walk_last, walk_list, walk_statement};
use php_ast::{ClassMember, Script, ScriptItem};
use php_base::NoMemory;
use php_legality::Fault;
use std::alloc::Global;

fn walk_member(met: Option<Fault>, member: &ClassMember) -> Option<Fault>
    ensures { result ≡ spec.met_member_body (member_view member.now) met }
{
    match member {
        ClassMember::Method(method) => walk_last(met, &method.body),
        ClassMember::Use(_, _, _) => met,
        ClassMember::Const(_, _) => met,
        ClassMember::Properties(_, _) => met,
    }
}

fn walk_members(met: Option<Fault>, members: &[ClassMember]) -> Option<Fault>
    ensures { result ≡ over spec.met_member_body (elements (sequence member_view members.now)) met }
{
    let mut first = met;
    for member in members {
        first = walk_member(first, member);
    }
    first
}

fn walk_item(met: Option<Fault>, item: &ScriptItem) -> Option<Fault>
    ensures { result ≡ spec.met_bodies (item_view item.now) met }
{
    match item {
        ScriptItem::Statement(s) => walk_statement(met, s),
        ScriptItem::Function(function) => walk_list(met, function.body.as_slice()),
        ScriptItem::Class(class) => walk_members(met, class.members.as_slice()),
        ScriptItem::Interface(interface) => walk_members(met, interface.members.as_slice()),
        ScriptItem::Trait(declared) => walk_members(met, declared.members.as_slice()),
    }
}

fn walk_items(met: Option<Fault>, items: &[ScriptItem]) -> Option<Fault>
    ensures { result ≡ over spec.met_bodies (map item_view items.now) met }
{
    let mut first = met;
    for item in items {
        first = walk_item(first, item);
    }
    first
}

// Names of functions and of classes.
fn first_of_names(
    alloc: Global,
    met: Option<Fault>,
    items: &[ScriptItem],
) -> Result<Option<Fault>, NoMemory>
    ensures { IfOk result (λ found. found ≡ spec.met_names (map item_view items.now) met) }
{
    let met = repeated_functions(alloc, met, items)?;
    let met = taken_functions(met, Taken::LibraryFunctions, items);
    let met = taken_functions(met, Taken::PreludeFunctions, items);
    let met = repeated_classes(alloc, met, items)?;
    Ok(taken_classes(met, Taken::BuiltInClasses, items))
}

// Names of members and of parameters.
fn first_of_members(
    alloc: Global,
    met: Option<Fault>,
    items: &[ScriptItem],
) -> Result<Option<Fault>, NoMemory>
    ensures { IfOk result (λ found. found ≡ spec.met_members (map item_view items.now) met) }
{
    let met = methods_of_items(alloc, met, items)?;
    let met = properties_of_items(alloc, met, items)?;
    let met = constants_of_items(alloc, met, items)?;
    params_of_items(alloc, met, items)
}

fn first_in_items(alloc: Global, items: &[ScriptItem]) -> Result<Option<Fault>, NoMemory>
    ensures { IfOk result (λ found. found ≡ spec.met_script (map item_view items.now)) }
{
    let met = first_of_names(alloc, None, items)?;
    let met = first_of_members(alloc, met, items)?;
    Ok(walk_items(met, items))
}

/// The first name, or `default` of a `switch`, that is there already: an earlier function, class, member of the class, parameter or
/// label has it, or the library, the prelude or a built-in class. None where there is none.
///
/// Each name is hashed once. The time is linear in the length of the script.
pub fn first_duplicate(alloc: Global, script: &Script) -> Result<Option<Fault>, NoMemory>
    ensures { IfOk result (FirstDuplicate (script_view script.now)) }
{
    let found = first_in_items(alloc, script.items.as_slice())?;
    Ok(found)
}
