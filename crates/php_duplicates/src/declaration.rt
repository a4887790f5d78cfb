// Duplicates among the functions and among the classes of a script, and in each class.

ghost use Rattle.std.specs.Prelude.{◌≡◌, IfOk, map, OnOk};
ghost use Rattle.php_ast.specs.declaration.View.{item_view, member_view};
ghost use Rattle.php_ast.specs.statement.View.{sequence};
ghost use Rattle.php_legality.specs.Lists.{elements};
ghost use Rattle.php_duplicates.specs.Met as spec;
ghost use Rattle.php_duplicates.specs.Over.{over};
ghost use Rattle.php_duplicates.specs.Saw.{first_among};

use crate::member::{
    members_in, repeated_constants, repeated_in_signature, repeated_methods, repeated_properties,
};
use crate::seen::Seen;
use php_ast::{ClassMember, ScriptItem};
use php_base::NoMemory;
use php_legality::Fault;
use std::alloc::Global;

fn see_function(seen: &mut Seen, alloc: Global, item: &ScriptItem) -> Result<(), NoMemory>
    ensures { OnOk result (seen.new ≡ spec.see_function (item_view item.now) seen.old) }
{
    match item {
        ScriptItem::Function(function) => seen.see_alike(alloc, &function.name),
        ScriptItem::Statement(_) => Ok(()),
        ScriptItem::Class(_) => Ok(()),
        ScriptItem::Interface(_) => Ok(()),
        ScriptItem::Trait(_) => Ok(()),
    }
}

/// The first function, behind what was met, that an earlier one is named like.
pub(crate) fn repeated_functions(
    alloc: Global,
    met: Option<Fault>,
    items: &[ScriptItem],
) -> Result<Option<Fault>, NoMemory>
    ensures { IfOk result (λ found. found ≡ first_among spec.see_function (map item_view items.now) met) }
{
    let mut seen = Seen::new(alloc, met);
    for item in items {
        see_function(&mut seen, alloc, item)?;
    }
    Ok(seen.first())
}

fn see_class(seen: &mut Seen, alloc: Global, item: &ScriptItem) -> Result<(), NoMemory>
    ensures { OnOk result (seen.new ≡ spec.see_class (item_view item.now) seen.old) }
{
    match item {
        ScriptItem::Class(class) => seen.see_alike(alloc, &class.name),
        ScriptItem::Interface(interface) => seen.see_alike(alloc, &interface.name),
        ScriptItem::Trait(declared) => seen.see_alike(alloc, &declared.name),
        ScriptItem::Statement(_) => Ok(()),
        ScriptItem::Function(_) => Ok(()),
    }
}

/// Likewise the first class, interface or trait.
pub(crate) fn repeated_classes(
    alloc: Global,
    met: Option<Fault>,
    items: &[ScriptItem],
) -> Result<Option<Fault>, NoMemory>
    ensures { IfOk result (λ found. found ≡ first_among spec.see_class (map item_view items.now) met) }
{
    let mut seen = Seen::new(alloc, met);
    for item in items {
        see_class(&mut seen, alloc, item)?;
    }
    Ok(seen.first())
}

/// The first method of a class that another one of the class is named like.
pub(crate) fn methods_of_items(
    alloc: Global,
    met: Option<Fault>,
    items: &[ScriptItem],
) -> Result<Option<Fault>, NoMemory>
    ensures { IfOk result (λ found. found ≡ over spec.met_methods (map item_view items.now) met) }
{
    let mut first = met;
    for item in items {
        first = repeated_methods(alloc, first, members_in(item))?;
    }
    Ok(first)
}

/// Likewise the first property.
pub(crate) fn properties_of_items(
    alloc: Global,
    met: Option<Fault>,
    items: &[ScriptItem],
) -> Result<Option<Fault>, NoMemory>
    ensures { IfOk result (λ found. found ≡ over spec.met_properties (map item_view items.now) met) }
{
    let mut first = met;
    for item in items {
        first = repeated_properties(alloc, first, members_in(item))?;
    }
    Ok(first)
}

/// Likewise the first constant.
pub(crate) fn constants_of_items(
    alloc: Global,
    met: Option<Fault>,
    items: &[ScriptItem],
) -> Result<Option<Fault>, NoMemory>
    ensures { IfOk result (λ found. found ≡ over spec.met_constants (map item_view items.now) met) }
{
    let mut first = met;
    for item in items {
        first = repeated_constants(alloc, first, members_in(item))?;
    }
    Ok(first)
}

// ---- parameters

fn params_of_member(
    alloc: Global,
    met: Option<Fault>,
    member: &ClassMember,
) -> Result<Option<Fault>, NoMemory>
    ensures { IfOk result (λ found. found ≡ spec.met_method (member_view member.now) met) }
{
    match member {
        ClassMember::Method(method) => repeated_in_signature(alloc, met, &method.signature),
        ClassMember::Use(_, _, _) => Ok(met),
        ClassMember::Const(_, _) => Ok(met),
        ClassMember::Properties(_, _) => Ok(met),
    }
}

fn params_of_members(
    alloc: Global,
    met: Option<Fault>,
    members: &[ClassMember],
) -> Result<Option<Fault>, NoMemory>
    ensures { IfOk result (λ found. found ≡ over spec.met_method
        (elements (sequence member_view members.now)) met) }
{
    let mut first = met;
    for member in members {
        first = params_of_member(alloc, first, member)?;
    }
    Ok(first)
}

fn params_of_item(
    alloc: Global,
    met: Option<Fault>,
    item: &ScriptItem,
) -> Result<Option<Fault>, NoMemory>
    ensures { IfOk result (λ found. found ≡ spec.met_params (item_view item.now) met) }
{
    match item {
        ScriptItem::Function(function) => repeated_in_signature(alloc, met, &function.signature),
        ScriptItem::Statement(_) => Ok(met),
        ScriptItem::Class(class) => params_of_members(alloc, met, class.members.as_slice()),
        ScriptItem::Interface(interface) => {
            params_of_members(alloc, met, interface.members.as_slice())
        }
        ScriptItem::Trait(declared) => params_of_members(alloc, met, declared.members.as_slice()),
    }
}

/// The first parameter of a function or a method that an earlier one of its parameters is named like.
pub(crate) fn params_of_items(
    alloc: Global,
    met: Option<Fault>,
    items: &[ScriptItem],
) -> Result<Option<Fault>, NoMemory>
    ensures { IfOk result (λ found. found ≡ over spec.met_params (map item_view items.now) met) }
{
    let mut first = met;
    for item in items {
        first = params_of_item(alloc, first, item)?;
    }
    Ok(first)
}
