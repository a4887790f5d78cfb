// Duplicates among the members of one class, interface or trait, and among the parameters of one signature.

ghost use Rattle.std.specs.Prelude.{◌≡◌, IfOk, map, OnOk};
ghost use Rattle.php_ast.specs.declaration.View.{class_constant_view, item_view, member_view, param_view, signature_view};
ghost use Rattle.php_ast.specs.statement.View.{sequence, variable_view};
ghost use Rattle.php_legality.specs.Lists.{elements};
ghost use Rattle.php_duplicates.specs.Met as spec;
ghost use Rattle.php_duplicates.specs.Over.{over};
ghost use Rattle.php_duplicates.specs.Saw.{first_among};

use crate::seen::Seen;
use php_ast::{ClassConstant, ClassMember, Param, ScriptItem, Signature, VariableItem};
use php_base::NoMemory;
use php_legality::Fault;
use std::alloc::Global;

/// The members of an item; none where it is no class, interface or trait.
pub(crate) fn members_in(item: &ScriptItem) -> &[ClassMember]
    ensures { map member_view result.now ≡ spec.members_in (item_view item.now) }
{
    match item {
        ScriptItem::Class(class) => class.members.as_slice(),
        ScriptItem::Interface(interface) => interface.members.as_slice(),
        ScriptItem::Trait(declared) => declared.members.as_slice(),
        ScriptItem::Statement(_) => &[],
        ScriptItem::Function(_) => &[],
    }
}

// ---- methods

fn see_method(seen: &mut Seen, alloc: Global, member: &ClassMember) -> Result<(), NoMemory>
    ensures { OnOk result (seen.new ≡ spec.see_method (member_view member.now) seen.old) }
{
    match member {
        ClassMember::Method(method) => seen.see_word_alike(alloc, &method.name),
        ClassMember::Use(_, _, _) => Ok(()),
        ClassMember::Const(_, _) => Ok(()),
        ClassMember::Properties(_, _) => Ok(()),
    }
}

/// The first method, behind what was met, that an earlier one of these members is named like.
pub(crate) fn repeated_methods(
    alloc: Global,
    met: Option<Fault>,
    members: &[ClassMember],
) -> Result<Option<Fault>, NoMemory>
    ensures { IfOk result (λ found. found ≡ first_among spec.see_method (map member_view members.now) met) }
{
    let mut seen = Seen::new(alloc, met);
    for member in members {
        see_method(&mut seen, alloc, member)?;
    }
    Ok(seen.first())
}

// ---- properties

fn see_variables(seen: &mut Seen, variables: &[VariableItem]) -> Result<(), NoMemory>
    ensures { OnOk result (seen.new ≡ over spec.see_variable
        (elements (sequence variable_view variables.now)) seen.old) }
{
    for variable in variables {
        seen.see_name(&variable.name)?;
    }
    Ok(())
}

fn see_property(seen: &mut Seen, member: &ClassMember) -> Result<(), NoMemory>
    ensures { OnOk result (seen.new ≡ spec.see_property (member_view member.now) seen.old) }
{
    match member {
        ClassMember::Properties(_, variables) => see_variables(seen, variables.as_slice()),
        ClassMember::Use(_, _, _) => Ok(()),
        ClassMember::Const(_, _) => Ok(()),
        ClassMember::Method(_) => Ok(()),
    }
}

/// Likewise the first property.
pub(crate) fn repeated_properties(
    alloc: Global,
    met: Option<Fault>,
    members: &[ClassMember],
) -> Result<Option<Fault>, NoMemory>
    ensures { IfOk result (λ found. found ≡ first_among spec.see_property (map member_view members.now) met) }
{
    let mut seen = Seen::new(alloc, met);
    for member in members {
        see_property(&mut seen, member)?;
    }
    Ok(seen.first())
}

// ---- constants

fn see_class_constants(seen: &mut Seen, constants: &[ClassConstant]) -> Result<(), NoMemory>
    ensures { OnOk result (seen.new ≡ over spec.see_class_constant
        (elements (sequence class_constant_view constants.now)) seen.old) }
{
    for constant in constants {
        seen.see_word(&constant.name)?;
    }
    Ok(())
}

fn see_constant(seen: &mut Seen, member: &ClassMember) -> Result<(), NoMemory>
    ensures { OnOk result (seen.new ≡ spec.see_constant (member_view member.now) seen.old) }
{
    match member {
        ClassMember::Const(_, constants) => see_class_constants(seen, constants.as_slice()),
        ClassMember::Use(_, _, _) => Ok(()),
        ClassMember::Method(_) => Ok(()),
        ClassMember::Properties(_, _) => Ok(()),
    }
}

/// Likewise the first constant.
pub(crate) fn repeated_constants(
    alloc: Global,
    met: Option<Fault>,
    members: &[ClassMember],
) -> Result<Option<Fault>, NoMemory>
    ensures { IfOk result (λ found. found ≡ first_among spec.see_constant (map member_view members.now) met) }
{
    let mut seen = Seen::new(alloc, met);
    for member in members {
        see_constant(&mut seen, member)?;
    }
    Ok(seen.first())
}

// ---- parameters

fn repeated_params(
    alloc: Global,
    met: Option<Fault>,
    params: &[Param],
) -> Result<Option<Fault>, NoMemory>
    ensures { IfOk result (λ found. found ≡ first_among spec.see_param
        (elements (sequence param_view params.now)) met) }
{
    let mut seen = Seen::new(alloc, met);
    for param in params {
        seen.see_name(&param.name)?;
    }
    Ok(seen.first())
}

/// Likewise the first parameter.
pub(crate) fn repeated_in_signature(
    alloc: Global,
    met: Option<Fault>,
    signature: &Signature,
) -> Result<Option<Fault>, NoMemory>
    ensures { IfOk result (λ found. found ≡ spec.met_signature (signature_view signature.now) met) }
{
    repeated_params(alloc, met, signature.params.as_slice())
}
