// What the parts of the parser give.

ghost use Rattle.std.specs.Prelude.{◌≡◌, true};
ghost use Rattle.php_flat.specs.Statements.{is_flat_key, is_flat_optional, is_flat_statement, is_flat_target};
ghost use Rattle.php_reader.specs.declared.fail.Stop.TheVariants.{Syntax};

use php_ast::{CaseEnd, Expr, Name, Stmt, Target};
use php_parse_expression::Read;
use php_reader::{Entry, Stop};
use sqlite_items::Items;

/// A statement, and the place behind it. It is flat.
#[derive(Drop)]
pub struct ReadStatement {
    pub statement: Stmt,
    pub next: usize,
    pub ghost flat: { is_flat_statement statement ≡ true },
}

/// What takes the key, if anything, and the value at each turn of a `foreach`; and the place behind them.
#[derive(Drop)]
pub struct Turn {
    pub key: Option<Target>,
    pub value: Target,
    pub next: usize,
    pub ghost flat_key: { is_flat_key key ≡ true },
    pub ghost flat_value: { is_flat_target value ≡ true },
}

/// The value of a label, if it is no `default`, what ends it, and the place behind that.
#[derive(Drop)]
pub struct Label {
    pub value: Option<Expr>,
    pub end: CaseEnd,
    pub next: usize,
    pub ghost flat: { is_flat_optional value ≡ true },
}

/// The classes of a `catch` and its variable, and the place behind the parenthesis that ends them.
#[derive(Drop)]
pub struct Caught {
    pub classes: Items<Name>,
    pub variable: Name,
    pub next: usize,
}

/// The value of a token.
#[derive(Clone, Copy)]
pub struct Number {
    pub value: i64,
}

/// An expression is not followed by what must stand behind it.
pub fn unclosed(read: Read) -> Stop
    ensures { result ≡ Syntax read.next }
{
    Stop::Syntax(read.next)
}

/// Lets go of what was read before a failure.
pub fn discard(_values: Items<Expr>, stop: Stop) -> Stop
    ensures { result ≡ stop }
{
    stop
}

/// A target is not followed by what must stand behind it.
pub fn unended(read: Entry<Target>) -> Stop
    ensures { result ≡ Syntax read.next }
{
    Stop::Syntax(read.next)
}

/// Lets go of a target that was read before a failure.
pub fn let_go(_read: Entry<Target>, stop: Stop) -> Stop
    ensures { result ≡ stop }
{
    stop
}
