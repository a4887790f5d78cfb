// Trees of declarations from their parts.

ghost use Rattle.std.specs.Prelude.{◌≡◌, true};
ghost use Rattle.php_ast.specs.expression.View.{spot_view};
ghost use Rattle.php_ast.specs.statement.View.{name_view, names_view, optional, sequence, statement_view};
ghost use Rattle.php_ast.specs.declaration.Tree as tree;
ghost use Rattle.php_ast.specs.declaration.View.{class_word_view, function_view, item_view, member_view};
ghost use Rattle.php_flat.specs.Declarations.{are_flat_members, is_flat_function, is_flat_script_item};
ghost use Rattle.php_flat.specs.Statements.{is_flat_statement};

use crate::read::{ClassHeading, InterfaceHeading};
use php_ast::{
    ClassDecl, ClassMember, FunctionDecl, InterfaceDecl, Name, ScriptItem, Spot, Stmt, TraitDecl,
};
use sqlite_items::Items;

/// A statement.
pub(crate) fn statement_item(statement: Stmt) -> ScriptItem
    requires { is_flat_statement statement ≡ true }
    ensures shown { item_view result ≡ tree.of_statement (statement_view statement) }
    ensures flat { is_flat_script_item result ≡ true }
{
    ScriptItem::Statement(statement)
}

/// A function.
pub(crate) fn function_item(function: FunctionDecl) -> ScriptItem
    requires { is_flat_function function ≡ true }
    ensures shown { item_view result ≡ tree.of_function (function_view function) }
    ensures flat { is_flat_script_item result ≡ true }
{
    ScriptItem::Function(function)
}

/// A class.
pub(crate) fn class_item(heading: ClassHeading, members: Items<ClassMember>) -> ScriptItem
    requires { are_flat_members members ≡ true }
    ensures shown { item_view result ≡ tree.of_class (record {
      modifiers = sequence class_word_view heading.modifiers;
      note = spot_view heading.spot;
      name = name_view heading.name;
      parent = optional name_view heading.parent;
      interfaces = names_view heading.interfaces;
      members = sequence member_view members;
    }) }
    ensures flat { is_flat_script_item result ≡ true }
{
    ScriptItem::Class(ClassDecl {
        modifiers: heading.modifiers,
        spot: heading.spot,
        name: heading.name,
        parent: heading.parent,
        interfaces: heading.interfaces,
        members,
    })
}

/// An interface.
pub(crate) fn interface_item(heading: InterfaceHeading, members: Items<ClassMember>) -> ScriptItem
    requires { are_flat_members members ≡ true }
    ensures shown { item_view result ≡ tree.of_interface (record {
      note = spot_view heading.spot;
      name = name_view heading.name;
      parents = names_view heading.parents;
      members = sequence member_view members;
    }) }
    ensures flat { is_flat_script_item result ≡ true }
{
    ScriptItem::Interface(InterfaceDecl {
        spot: heading.spot,
        name: heading.name,
        parents: heading.parents,
        members,
    })
}

/// A trait.
pub(crate) fn trait_item(spot: Spot, name: Name, members: Items<ClassMember>) -> ScriptItem
    requires { are_flat_members members ≡ true }
    ensures shown { item_view result ≡ tree.of_trait (record {
      note = spot_view spot;
      name = name_view name;
      members = sequence member_view members;
    }) }
    ensures flat { is_flat_script_item result ≡ true }
{
    ScriptItem::Trait(TraitDecl {
        spot,
        name,
        members,
    })
}
