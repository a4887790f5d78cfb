// What the parts of the parser give that read forms with statements inside.

ghost use Rattle.std.specs.Prelude.{◌≡◌, true};
ghost use Rattle.php_flat.specs.Statements.{are_flat_statements};

use php_ast::{Case, Catch, ElseIf, Stmt};
use php_reader::{Listed, Stop};
use sqlite_items::Items;

/// The bodies of an `if`: the first one, those of its `elseif` parts, that of its `else`; and the place behind them.
#[derive(Drop)]
pub(crate) struct Branches<B> {
    pub(crate) body: B,
    pub(crate) parts: Items<ElseIf<B>>,
    pub(crate) last: Option<B>,
    pub(crate) next: usize,
}

/// The statements between the braces of a function, and the place behind the `}`. They are flat.
#[derive(Drop)]
pub struct ReadBraced {
    pub statements: Items<Stmt>,
    pub next: usize,
    pub ghost flat: { are_flat_statements statements ≡ true },
}

/// The `catch` parts of a `try` and the statements of its `finally`, if it has one; and the place behind them.
#[derive(Drop)]
pub(crate) struct Handlers {
    pub(crate) catches: Items<Catch<Stmt>>,
    pub(crate) last: Option<Items<Stmt>>,
    pub(crate) next: usize,
}

/// Lets go of statements that were read before a failure.
pub(crate) fn forget(_statements: Items<Stmt>, stop: Stop) -> Stop
    ensures { result ≡ stop }
{
    stop
}

/// Likewise of cases.
pub(crate) fn drop_cases(_cases: Listed<Case<Stmt>>, stop: Stop) -> Stop
    ensures { result ≡ stop }
{
    stop
}
