// Trees of statements from their parts.

ghost use Rattle.std.specs.Prelude.{◌≡◌, true, map};
ghost use Rattle.std.specs.List.{list_all};
ghost use Rattle.php_ast.specs.expression.View.{spot_view, view};
ghost use Rattle.php_ast.specs.statement.Tree as tree;
ghost use Rattle.php_ast.specs.statement.View as shown;
ghost use Rattle.php_ast.specs.statement.View.{statement_view, statements_view};
ghost use Rattle.php_parse_simple.specs.RoleView.{jump_view};
ghost use Rattle.php_parse_simple.specs.Parts as part;
ghost use Rattle.php_build.specs.Flat.{are_flat, is_flat};
ghost use Rattle.php_flat.specs.Statements.{are_flat_statements, is_flat_body, is_flat_case, is_flat_catch, is_flat_constant, is_flat_elseif, is_flat_elseif_list, is_flat_for, is_flat_foreach, is_flat_last, is_flat_list, is_flat_optional, is_flat_statement, is_flat_variable};

use crate::read::Number;
use crate::role::JumpKind;
use php_ast::{
    Body, Case, Catch, ConstantItem, ElseIf, Expr, ForHead, ForeachHead, Name, Spot, Stmt,
    SwitchForm, VariableItem,
};
use php_value::Text;
use sqlite_items::{Boxed, Items};

/// `{ .. }`
pub fn block_statement(spot: Spot, body: Items<Stmt>) -> Stmt
    requires { are_flat_statements body ≡ true }
    ensures shown { statement_view result ≡ tree.block (spot_view spot) (statements_view body) }
    ensures flat { is_flat_statement result ≡ true }
{
    Stmt::Block(spot, body)
}

/// `;`
pub fn blank_statement(spot: Spot) -> Stmt
    ensures shown { statement_view result ≡ tree.blank (spot_view spot) }
    ensures flat { is_flat_statement result ≡ true }
{
    Stmt::Empty(spot)
}

/// Bytes outside the tags.
pub fn inline_statement(spot: Spot, text: Text) -> Stmt
    ensures shown { statement_view result ≡ tree.inline (spot_view spot) text }
    ensures flat { is_flat_statement result ≡ true }
{
    Stmt::Inline(spot, text)
}

/// An expression and `;`
pub fn line_statement(spot: Spot, expr: Expr) -> Stmt
    requires { is_flat expr ≡ true }
    ensures shown { statement_view result ≡ tree.expression (spot_view spot) (view expr) }
    ensures flat { is_flat_statement result ≡ true }
{
    Stmt::Expression(spot, expr)
}

/// `echo ..;`
pub fn echo_statement(spot: Spot, values: Items<Expr>) -> Stmt
    requires { are_flat values ≡ true }
    ensures shown { statement_view result ≡ tree.echo (spot_view spot) (shown.values_view values) }
    ensures flat { is_flat_statement result ≡ true }
{
    Stmt::Echo(spot, values)
}

/// `global ..;`
pub fn globals_statement(spot: Spot, names: Items<Name>) -> Stmt
    ensures shown { statement_view result ≡ tree.globals (spot_view spot) (shown.names_view names) }
    ensures flat { is_flat_statement result ≡ true }
{
    Stmt::Global(spot, names)
}

/// `static ..;`
pub fn statics_statement(spot: Spot, variables: Items<VariableItem>) -> Stmt
    requires { list_all is_flat_variable variables ≡ true }
    ensures shown { statement_view result ≡ tree.statics (spot_view spot) (shown.sequence shown.variable_view variables) }
    ensures flat { is_flat_statement result ≡ true }
{
    Stmt::Static(spot, variables)
}

/// `unset(..);`
pub fn unset_statement(spot: Spot, places: Items<Expr>) -> Stmt
    requires { are_flat places ≡ true }
    ensures shown { statement_view result ≡ tree.unset (spot_view spot) (shown.values_view places) }
    ensures flat { is_flat_statement result ≡ true }
{
    Stmt::Unset(spot, places)
}

/// `const ..;`
pub fn constants_statement(spot: Spot, constants: Items<ConstantItem>) -> Stmt
    requires { list_all is_flat_constant constants ≡ true }
    ensures shown { statement_view result ≡ tree.constants (spot_view spot) (shown.sequence shown.constant_view constants) }
    ensures flat { is_flat_statement result ≡ true }
{
    Stmt::Const(spot, constants)
}

/// `return`, `break` or `continue`, and a value or none.
pub fn jump_statement(spot: Spot, kind: JumpKind, value: Option<Expr>) -> Stmt
    requires { is_flat_optional value ≡ true }
    ensures shown { statement_view result ≡ tree.jump (spot_view spot) (jump_view kind) (shown.optional view value) }
    ensures flat { is_flat_statement result ≡ true }
{
    match kind {
        JumpKind::Return => Stmt::Return(spot, value),
        JumpKind::Break => Stmt::Break(spot, value),
        JumpKind::Continue => Stmt::Continue(spot, value),
    }
}

/// `throw ..;`
pub fn throw_statement(spot: Spot, expr: Expr) -> Stmt
    requires { is_flat expr ≡ true }
    ensures shown { statement_view result ≡ tree.throw (spot_view spot) (view expr) }
    ensures flat { is_flat_statement result ≡ true }
{
    Stmt::Throw(spot, expr)
}

/// `if` with statements as bodies.
pub fn if_statement(
    spot: Spot,
    test: Expr,
    body: Boxed<Stmt>,
    parts: Items<ElseIf<Boxed<Stmt>>>,
    last: Option<Boxed<Stmt>>,
) -> Stmt
    requires test { is_flat test ≡ true }
    requires body { is_flat_statement body ≡ true }
    requires parts { list_all is_flat_elseif parts ≡ true }
    requires last { is_flat_last last ≡ true }
    ensures shown { statement_view result ≡ shown.if_view (spot_view spot) (view test) (statement_view body)
        (shown.elseifs_from tree.no_elseif (map part.elseif_parts parts)) (shown.optional statement_view last) }
    ensures flat { is_flat_statement result ≡ true }
{
    Stmt::If(spot, test, body, parts, last)
}

/// `if` with lists behind colons.
pub fn if_lists_statement(
    spot: Spot,
    test: Expr,
    body: Items<Stmt>,
    parts: Items<ElseIf<Items<Stmt>>>,
    last: Option<Items<Stmt>>,
) -> Stmt
    requires test { is_flat test ≡ true }
    requires body { are_flat_statements body ≡ true }
    requires parts { list_all is_flat_elseif_list parts ≡ true }
    requires last { is_flat_list last ≡ true }
    ensures shown { statement_view result ≡ shown.if_lists_view (spot_view spot) (view test) (statements_view body)
        (shown.elseif_lists_from tree.no_elseif_list (map part.elseif_list_parts parts)) (shown.optional (map statement_view) last) }
    ensures flat { is_flat_statement result ≡ true }
{
    Stmt::IfColon(spot, test, body, parts, last)
}

/// `while`
pub fn while_statement(spot: Spot, test: Expr, body: Body<Stmt>) -> Stmt
    requires test { is_flat test ≡ true }
    requires body { is_flat_body body ≡ true }
    ensures shown { statement_view result ≡ tree.while (spot_view spot) (view test) (shown.body_view (part.body_parts body)) }
    ensures flat { is_flat_statement result ≡ true }
{
    Stmt::While(spot, test, body)
}

/// `do .. while (..);`
pub fn do_while_statement(spot: Spot, body: Boxed<Stmt>, test: Expr) -> Stmt
    requires body { is_flat_statement body ≡ true }
    requires test { is_flat test ≡ true }
    ensures shown { statement_view result ≡ tree.do_while (spot_view spot) (statement_view body) (view test) }
    ensures flat { is_flat_statement result ≡ true }
{
    Stmt::DoWhile(spot, body, test)
}

/// `for`
pub fn for_statement(spot: Spot, head: ForHead, body: Body<Stmt>) -> Stmt
    requires head { is_flat_for head ≡ true }
    requires body { is_flat_body body ≡ true }
    ensures shown { statement_view result ≡ tree.for (spot_view spot) (shown.values_view head.starts) (shown.values_view head.tests)
        (shown.values_view head.steps) (shown.body_view (part.body_parts body)) }
    ensures flat { is_flat_statement result ≡ true }
{
    Stmt::For(spot, head, body)
}

/// `foreach`
pub fn foreach_statement(spot: Spot, head: ForeachHead, body: Body<Stmt>) -> Stmt
    requires head { is_flat_foreach head ≡ true }
    requires body { is_flat_body body ≡ true }
    ensures shown { statement_view result ≡ tree.foreach (spot_view spot) (view head.walked) (shown.optional shown.target_view head.key)
        (shown.target_view head.value) (shown.body_view (part.body_parts body)) }
    ensures flat { is_flat_statement result ≡ true }
{
    Stmt::Foreach(spot, head, body)
}

/// `switch`
pub fn switch_statement(spot: Spot, value: Expr, form: SwitchForm, cases: Items<Case<Stmt>>) -> Stmt
    requires value { is_flat value ≡ true }
    requires cases { list_all is_flat_case cases ≡ true }
    ensures shown { statement_view result ≡ tree.switch (spot_view spot) (view value) form (shown.cases_from tree.no_case (map part.case_parts cases)) }
    ensures flat { is_flat_statement result ≡ true }
{
    Stmt::Switch(spot, value, form, cases)
}

/// `try`
pub fn try_statement(
    spot: Spot,
    body: Items<Stmt>,
    catches: Items<Catch<Stmt>>,
    last: Option<Items<Stmt>>,
) -> Stmt
    requires body { are_flat_statements body ≡ true }
    requires catches { list_all is_flat_catch catches ≡ true }
    requires last { is_flat_list last ≡ true }
    ensures shown { statement_view result ≡ shown.try_view (spot_view spot) (statements_view body)
        (shown.catches_from tree.no_catch (map part.catch_parts catches)) (shown.optional (map statement_view) last) }
    ensures flat { is_flat_statement result ≡ true }
{
    Stmt::Try(spot, body, catches, last)
}

/// `declare(name = int);`
pub fn declare_statement(spot: Spot, name: Name, number: Number) -> Stmt
    ensures shown { statement_view result ≡ tree.declares (spot_view spot) (shown.name_view name) number.value }
    ensures flat { is_flat_statement result ≡ true }
{
    Stmt::Declare(spot, name, number.value)
}
