// The bodies of a script, with what they belong to.

ghost use Rattle.std.specs.Prelude.{◌≡◌, ◌&&◌, false, Some, codes, map};
ghost use Rattle.std.specs.Str.{str_eq_ignore_ascii_case};
ghost use Rattle.php_ast.specs.declaration.View.{base_view, item_view, member_view, signature_view, type_view};
ghost use Rattle.php_ast.specs.statement.View.{optional, sequence, statement_view, statements_view};
ghost use Rattle.php_legality.specs.Lists.{elements};
ghost use Rattle.php_legality.specs.Declarations as meant;
ghost use Rattle.php_legality.specs.Rows as rows;
ghost use Rattle.php_places.specs.Over.{over};
ghost use Rattle.php_bodies.specs.Met.{met_last};
ghost use Rattle.php_forms.specs.Bodies as spec;

use php_ast::{BaseType, ClassMember, Name, ScriptItem, Signature, Stmt, Type};
use php_bodies::{walk_last, walk_list, walk_statement};
use php_legality::{Fault, Scope};
use sqlite_items::Items;

fn is_void_base(base: &BaseType) -> bool
    ensures { result ≡ meant.is_void_type (Some (record { is_nullable = false; base = base_view base.now })) }
{
    match base {
        BaseType::Name(name) => b"void".eq_ignore_ascii_case(name.text.bytes()),
        BaseType::Array => false,
        BaseType::Callable => false,
    }
}

fn is_void(declared: &Option<Type>) -> bool
    ensures { result ≡ meant.is_void_type (optional type_view declared.now) }
{
    match declared {
        None => false,
        Some(t) => {
            if t.is_nullable {
                false
            } else {
                is_void_base(&t.base)
            }
        }
    }
}

fn body_scope(in_class: bool, s: &Signature) -> Scope
    ensures { result ≡ meant.body_scope in_class (signature_view s.now) }
{
    Scope {
        in_class,
        in_function: true,
        is_void: is_void(&s.result),
    }
}

fn outermost() -> Scope
    ensures { result ≡ meant.outermost }
{
    Scope {
        in_class: false,
        in_function: false,
        is_void: false,
    }
}

fn walk_body(met: Option<Fault>, scope: Scope, body: &Option<Items<Stmt>>) -> Option<Fault>
    ensures { result ≡ met_last scope (optional statements_view body.now) met }
{
    walk_last(met, scope, body)
}

fn walk_member(met: Option<Fault>, member: &ClassMember) -> Option<Fault>
    ensures { result ≡ spec.met_member_body (member_view member.now) met }
{
    match member {
        ClassMember::Method(method) => walk_body(
            met,
            body_scope(true, &method.signature),
            &method.body,
        ),
        ClassMember::Use(_, _, _) | ClassMember::Const(_, _) | ClassMember::Properties(_, _) => met,
    }
}

fn walk_members(met: Option<Fault>, members: &[ClassMember]) -> Option<Fault>
    ensures { result ≡ over spec.met_member_body (elements (sequence member_view members.now)) met }
{
    let mut first = met;
    for member in members {
        first = walk_member(first, member);
    }
    first
}

fn walk_item(met: Option<Fault>, item: &ScriptItem) -> Option<Fault>
    ensures { result ≡ spec.met_item_bodies (item_view item.now) met }
{
    match item {
        ScriptItem::Statement(s) => walk_statement(met, outermost(), s),
        ScriptItem::Function(function) => {
            walk_list(
                met,
                body_scope(false, &function.signature),
                function.body.as_slice(),
            )
        }
        ScriptItem::Class(class) => walk_members(met, class.members.as_slice()),
        ScriptItem::Interface(interface) => walk_members(met, interface.members.as_slice()),
        ScriptItem::Trait(item) => walk_members(met, item.members.as_slice()),
    }
}

fn walk_items(met: Option<Fault>, items: &[ScriptItem]) -> Option<Fault>
    ensures { result ≡ over spec.met_item_bodies (map item_view items.now) met }
{
    let mut first = met;
    for item in items {
        first = walk_item(first, item);
    }
    first
}

fn is_zero_or_one(n: i64) -> bool
    ensures { result ≡ rows.is_zero_or_one n }
{
    if n < 0 { false } else { n < 2 }
}

// Whether a declaration is one of strict types, or of none, as it should be.
fn are_strict_types(name: &Name, n: i64) -> bool
    ensures { result ≡ (str_eq_ignore_ascii_case (codes "strict_types") name.now.text && rows.is_zero_or_one n) }
{
    if b"strict_types".eq_ignore_ascii_case(name.text.bytes()) {
        is_zero_or_one(n)
    } else {
        false
    }
}

fn is_strict_types(s: &Stmt) -> bool
    ensures { result ≡ rows.is_strict_types (statement_view s.now) }
{
    match s {
        Stmt::Declare(_, name, n) => are_strict_types(name, *n),
        _ => false,
    }
}

fn declares_types(item: &ScriptItem) -> bool
    ensures { result ≡ spec.declares_types (item_view item.now) }
{
    match item {
        ScriptItem::Statement(s) => is_strict_types(s),
        ScriptItem::Function(_) => false,
        ScriptItem::Class(_) => false,
        ScriptItem::Interface(_) => false,
        ScriptItem::Trait(_) => false,
    }
}

/// The first fault, behind those met, of the bodies of a script. A declaration of strict types may be the first thing in it.
pub(crate) fn walk_bodies(met: Option<Fault>, items: &[ScriptItem]) -> Option<Fault>
    ensures { result ≡ over spec.met_item_bodies (rows.behind_strict_types (map item_view items.now)) met }
{
    if items.is_empty() {
        met
    } else if declares_types(&items[0]) {
        walk_items(met, &items[1..])
    } else {
        walk_items(met, items)
    }
}
