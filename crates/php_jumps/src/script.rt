// The walk over the items of a script.

ghost use Rattle.std.specs.Prelude.{◌≡◌, map, None};
ghost use Rattle.php_ast.specs.declaration.View as shown;
ghost use Rattle.php_ast.specs.declaration.View.{item_view, member_view, script_view};
ghost use Rattle.php_ast.specs.statement.View.{optional, statements_view};
ghost use Rattle.php_legality.specs.declared.kind.Kind.TheVariants as kind;
ghost use Rattle.php_jumps.specs.Met as spec;
ghost use Rattle.php_jumps.specs.Promise.{FirstJumpFault};

use crate::around::nothing;
use crate::walk::{walk_last, walk_list, walk_statement};
use php_ast::{ClassMember, Script, ScriptItem, Stmt};
use php_legality::Fault;
use sqlite_items::Items;

fn walk_method_body(met: Option<Fault>, body: &Option<Items<Stmt>>) -> Option<Fault>
    ensures { result ≡ spec.met_method_body (optional statements_view body.now) met }
{
    walk_last(met, nothing(), body)
}

fn walk_member(met: Option<Fault>, member: &ClassMember) -> Option<Fault>
    ensures { result ≡ spec.met_member (member_view member.now) met }
{
    match member {
        ClassMember::Use(_, _, _) | ClassMember::Const(_, _) | ClassMember::Properties(_, _) => met,
        ClassMember::Method(method) => walk_method_body(met, &method.body),
    }
}

fn walk_members(met: Option<Fault>, members: &[ClassMember]) -> Option<Fault>
    ensures { result ≡ spec.over spec.met_member (map member_view members.now) met }
{
    let mut first = met;
    for member in members {
        first = walk_member(first, member);
    }
    first
}

fn walk_item(met: Option<Fault>, item: &ScriptItem) -> Option<Fault>
    ensures { result ≡ spec.met_item (item_view item.now) met }
{
    match item {
        ScriptItem::Statement(s) => walk_statement(met, nothing(), s),
        ScriptItem::Function(function) => walk_list(met, nothing(), function.body.as_slice()),
        ScriptItem::Class(class) => walk_members(met, class.members.as_slice()),
        ScriptItem::Interface(interface) => walk_members(met, interface.members.as_slice()),
        ScriptItem::Trait(item) => walk_members(met, item.members.as_slice()),
    }
}

fn walk_items(met: Option<Fault>, items: &[ScriptItem]) -> Option<Fault>
    ensures { result ≡ spec.over spec.met_item (map item_view items.now) met }
{
    let mut first = met;
    for item in items {
        first = walk_item(first, item);
    }
    first
}

/// The first `break` or `continue` with a level that no loop or `switch` around it has, or that would leave a `finally` block; none where
/// there is no such jump.
pub fn first_jump_fault(script: &Script) -> Option<Fault>
    ensures { FirstJumpFault (script_view script.now) result }
{
    walk_items(None, script.items.as_slice())
}
