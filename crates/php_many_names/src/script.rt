// The names of a script.

ghost use Rattle.std.specs.Prelude.{◌≡◌, IfOk, OnOk};
ghost use Rattle.php_ast.specs.declaration.View as shown;
ghost use Rattle.php_ast.specs.declaration.View.{item_view, script_view};
ghost use Rattle.php_ast.specs.statement.View.{sequence};
ghost use Rattle.php_many_names.specs.Met as met;
ghost use Rattle.php_many_names.specs.Promise.{FirstNamePastLimit};

use crate::declaration::{meet_members, meet_optional_name, meet_signature};
use crate::names::{Names, meet_name};
use crate::statement::{meet_list, meet_names, meet_statement};
use php_ast::{ClassDecl, FunctionDecl, InterfaceDecl, Script, ScriptItem, TraitDecl};
use php_base::NoMemory;
use php_legality::Fault;
use std::alloc::Global;

fn meet_function(names: &mut Names, function: &FunctionDecl) -> Result<(), NoMemory>
    ensures { OnOk result (names.new ≡ met.met_function names.old (shown.function_view function.now)) }
{
    meet_name(names, &function.name)?;
    meet_signature(names, &function.signature)?;
    meet_list(names, function.body.as_slice())
}

fn meet_class(names: &mut Names, class: &ClassDecl) -> Result<(), NoMemory>
    ensures { OnOk result (names.new ≡ met.met_class_declaration names.old (shown.class_view class.now)) }
{
    meet_name(names, &class.name)?;
    meet_optional_name(names, &class.parent)?;
    meet_names(names, class.interfaces.as_slice())?;
    meet_members(names, class.members.as_slice())
}

fn meet_interface(names: &mut Names, interface: &InterfaceDecl) -> Result<(), NoMemory>
    ensures { OnOk result (names.new ≡ met.met_interface names.old (shown.interface_view interface.now)) }
{
    meet_name(names, &interface.name)?;
    meet_names(names, interface.parents.as_slice())?;
    meet_members(names, interface.members.as_slice())
}

fn meet_trait(names: &mut Names, declared: &TraitDecl) -> Result<(), NoMemory>
    ensures { OnOk result (names.new ≡ met.met_trait names.old (shown.trait_view declared.now)) }
{
    meet_name(names, &declared.name)?;
    meet_members(names, declared.members.as_slice())
}

fn meet_script_item(names: &mut Names, item: &ScriptItem) -> Result<(), NoMemory>
    ensures { OnOk result (names.new ≡ met.met_script_item names.old (item_view item.now)) }
{
    match item {
        ScriptItem::Statement(s) => meet_statement(names, s),
        ScriptItem::Function(function) => meet_function(names, function),
        ScriptItem::Class(class) => meet_class(names, class),
        ScriptItem::Interface(interface) => meet_interface(names, interface),
        ScriptItem::Trait(declared) => meet_trait(names, declared),
    }
}

fn meet_script_items(names: &mut Names, items: &[ScriptItem]) -> Result<(), NoMemory>
    ensures { OnOk result (names.new ≡ met.over met.met_script_item names.old (sequence item_view items.now)) }
{
    for item in items {
        meet_script_item(names, item)?;
    }
    Ok(())
}

/// The first token of a name or a variable that is one more than a script may have; none where it has no more.
///
/// Each name is hashed once, and its bytes are not copied. The time is linear in the length of the script.
pub fn first_name_past_limit(alloc: Global, script: &Script) -> Result<Option<Fault>, NoMemory>
    ensures { IfOk result (FirstNamePastLimit (script_view script.now)) }
{
    let mut names = Names::new(alloc);
    meet_script_items(&mut names, script.items.as_slice())?;
    Ok(names.first())
}
