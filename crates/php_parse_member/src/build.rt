// Trees of functions and members from their parts.

ghost use Rattle.std.specs.Prelude.{◌≡◌, true};
ghost use Rattle.std.specs.List.{list_all};
ghost use Rattle.php_ast.specs.expression.View.{spot_view};
ghost use Rattle.php_ast.specs.declaration.Tree as tree;
ghost use Rattle.php_ast.specs.statement.View.{names_view, sequence, variable_view};
ghost use Rattle.php_ast.specs.declaration.View.{class_constant_view, member_view, method_view, modifier_view, uses_view};
ghost use Rattle.php_flat.specs.Declarations.{is_flat_class_constant, is_flat_member, is_flat_method};
ghost use Rattle.php_flat.specs.Statements.{is_flat_variable};

use php_ast::{ClassConstant, ClassMember, Method, Modifier, Name, Rule, Spot, VariableItem};
use sqlite_items::Items;

/// `use ..;` and `use .. { .. }`
pub(crate) fn uses_member(spot: Spot, names: Items<Name>, rules: Option<Items<Rule>>) -> ClassMember
    ensures shown { member_view result ≡ uses_view (spot_view spot) (names_view names) rules }
    ensures flat { is_flat_member result ≡ true }
{
    ClassMember::Use(spot, names, rules)
}

/// `const ..;`
pub(crate) fn constants_member(
    modifiers: Items<Modifier>,
    constants: Items<ClassConstant>,
) -> ClassMember
    ensures shown { member_view result ≡ tree.class_constants (sequence modifier_view modifiers) (sequence class_constant_view constants) }
    ensures flat { is_flat_member result ≡ list_all is_flat_class_constant constants }
{
    ClassMember::Const(modifiers, constants)
}

/// A method.
pub(crate) fn method_member(method: Method) -> ClassMember
    ensures shown { member_view result ≡ tree.method (method_view method) }
    ensures flat { is_flat_member result ≡ is_flat_method method }
{
    ClassMember::Method(method)
}

/// Properties.
pub(crate) fn properties_member(
    modifiers: Items<Modifier>,
    properties: Items<VariableItem>,
) -> ClassMember
    ensures shown { member_view result ≡ tree.properties (sequence modifier_view modifiers) (sequence variable_view properties) }
    ensures flat { is_flat_member result ≡ list_all is_flat_variable properties }
{
    ClassMember::Properties(modifiers, properties)
}
