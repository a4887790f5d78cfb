// Whole scripts.

ghost use Rattle.std.specs.Prelude.{◌≡◌, map};
ghost use Rattle.php_ast.specs.declaration.View.{item_view, member_view, script_view};
ghost use Rattle.php_ast.specs.statement.View.{sequence};
ghost use Rattle.php_legality.specs.Lists.{elements};
ghost use Rattle.php_places.specs.Over.{over};
ghost use Rattle.php_forms.specs.Items as spec;
ghost use Rattle.php_forms.specs.Promise.{FirstFormFault};

use crate::body::walk_bodies;
use crate::class::check_classes;
use crate::member::check_members;
use crate::signature::check_signature;
use php_ast::{ClassMember, Script, ScriptItem};
use php_legality::Fault;

fn check_member_signature(met: Option<Fault>, member: &ClassMember) -> Option<Fault>
    ensures { result ≡ spec.met_member_signature (member_view member.now) met }
{
    match member {
        ClassMember::Method(method) => check_signature(met, true, &method.signature),
        ClassMember::Use(_, _, _) | ClassMember::Const(_, _) | ClassMember::Properties(_, _) => met,
    }
}

fn check_member_signatures(met: Option<Fault>, members: &[ClassMember]) -> Option<Fault>
    ensures { result ≡ over spec.met_member_signature (elements (sequence member_view members.now)) met }
{
    let mut first = met;
    for member in members {
        first = check_member_signature(first, member);
    }
    first
}

fn check_item_signatures(met: Option<Fault>, item: &ScriptItem) -> Option<Fault>
    ensures { result ≡ spec.met_item_signatures (item_view item.now) met }
{
    match item {
        ScriptItem::Statement(_) => met,
        ScriptItem::Function(function) => check_signature(met, false, &function.signature),
        ScriptItem::Class(class) => check_member_signatures(met, class.members.as_slice()),
        ScriptItem::Interface(interface) => check_member_signatures(
            met,
            interface.members.as_slice(),
        ),
        ScriptItem::Trait(item) => check_member_signatures(met, item.members.as_slice()),
    }
}

fn check_signatures(met: Option<Fault>, items: &[ScriptItem]) -> Option<Fault>
    ensures { result ≡ over spec.met_item_signatures (map item_view items.now) met }
{
    let mut first = met;
    for item in items {
        first = check_item_signatures(first, item);
    }
    first
}

fn check_item_members(met: Option<Fault>, item: &ScriptItem) -> Option<Fault>
    ensures { result ≡ spec.met_item_members (item_view item.now) met }
{
    match item {
        ScriptItem::Statement(_) => met,
        ScriptItem::Function(_) => met,
        ScriptItem::Class(class) => check_members(met, false, class.members.as_slice()),
        ScriptItem::Interface(interface) => check_members(met, true, interface.members.as_slice()),
        ScriptItem::Trait(item) => check_members(met, false, item.members.as_slice()),
    }
}

fn check_all_members(met: Option<Fault>, items: &[ScriptItem]) -> Option<Fault>
    ensures { result ≡ over spec.met_item_members (map item_view items.now) met }
{
    let mut first = met;
    for item in items {
        first = check_item_members(first, item);
    }
    first
}

/// The first fault of a script's forms: what is written to and is no place, an expression that should be constant and isn't, a list that is
/// written wrongly, or a word, a parameter or a member where it may not stand; none where there is none.
pub fn first_form_fault(script: &Script) -> Option<Fault>
    ensures { FirstFormFault (script_view script.now) result }
{
    let items = script.items.as_slice();
    let met = walk_bodies(None, items);
    let met = check_signatures(met, items);
    let met = check_all_members(met, items);
    check_classes(met, items)
}
