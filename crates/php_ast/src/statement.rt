// Statements. Each keeps how it is written: a body in braces is a statement that is a block, and a
// body behind a colon is a list. `elseif` parts, cases, `catch` parts and statements lie side by side in
// lists, so that a walk over a tree, or its end, takes no more stack than the nesting allows.

use crate::expression::Expr;
use crate::spot::{Name, Spot};
use php_value::Text;
use sqlite_items::{Boxed, Items};

/// A statement, with the spot of its first token.
#[derive(Drop)]
pub enum Stmt {
    /// `{ .. }`
    Block(Spot, Items<Stmt>),
    /// `;` alone
    Empty(Spot),
    /// Bytes outside the tags.
    Inline(Spot, Text),
    /// An expression and `;`
    Expression(Spot, Expr),
    /// `echo ..;`, of one value or more
    Echo(Spot, Items<Expr>),
    /// `global $a, ..;`
    Global(Spot, Items<Name>),
    /// `static $a = .., ..;`
    Static(Spot, Items<VariableItem>),
    /// `unset(..);`
    Unset(Spot, Items<Expr>),
    /// `const A = .., ..;`
    Const(Spot, Items<ConstantItem>),
    /// `return;` and `return ..;`
    Return(Spot, Option<Expr>),
    /// `throw ..;`
    Throw(Spot, Expr),
    /// `break;` and `break ..;`
    Break(Spot, Option<Expr>),
    /// `continue;` and `continue ..;`
    Continue(Spot, Option<Expr>),
    /// `if (..) ..`, its `elseif` parts, and its `else`
    If(Spot, Expr, Boxed<Stmt>, Items<ElseIf<Boxed<Stmt>>>, Option<Boxed<Stmt>>),
    /// `if (..): .. endif;`
    IfColon(Spot, Expr, Items<Stmt>, Items<ElseIf<Items<Stmt>>>, Option<Items<Stmt>>),
    /// `while (..) ..`
    While(Spot, Expr, Body<Stmt>),
    /// `do .. while (..);`
    DoWhile(Spot, Boxed<Stmt>, Expr),
    /// `for (..; ..; ..) ..`
    For(Spot, ForHead, Body<Stmt>),
    /// `foreach (.. as ..) ..`
    Foreach(Spot, ForeachHead, Body<Stmt>),
    /// `switch (..) ..`
    Switch(Spot, Expr, SwitchForm, Items<Case<Stmt>>),
    /// `try {..}`, then its `catch` parts, one or more, or a `finally`, or both
    Try(Spot, Items<Stmt>, Items<Catch<Stmt>>, Option<Items<Stmt>>),
    /// `declare(name = int);`
    Declare(Spot, Name, i64),
}

/// A variable, and the value that it begins with.
#[derive(Drop)]
pub struct VariableItem {
    pub name: Name,
    pub value: Option<Expr>,
}

/// A constant and its value.
#[derive(Drop)]
pub struct ConstantItem {
    pub name: Name,
    pub value: Expr,
}

/// `elseif (test) body`, where the body is a statement or, behind a colon, a list.
#[derive(Drop)]
pub struct ElseIf<B> {
    pub test: Expr,
    pub body: B,
}

/// The body of a loop.
#[derive(Drop)]
pub enum Body<S> {
    /// One statement, which may be a block.
    Single(Boxed<S>),
    /// `: .. endwhile;`, or the word of that loop.
    Colon(Items<S>),
}

/// What stands between the parentheses of a `for`. Each list may be empty.
#[derive(Drop)]
pub struct ForHead {
    pub starts: Items<Expr>,
    pub tests: Items<Expr>,
    pub steps: Items<Expr>,
}

/// What stands between the parentheses of a `foreach`.
#[derive(Drop)]
pub struct ForeachHead {
    pub walked: Expr,
    pub key: Option<Target>,
    pub value: Target,
}

/// What takes a key or a value at each turn of a `foreach`.
#[derive(Drop)]
pub struct Target {
    /// Whether `&` stands before it.
    pub is_reference: bool,
    pub place: Expr,
}

/// How the cases of a `switch` are enclosed.
#[derive(Clone, Copy, Debug, PartialEq, Eq)]
pub enum SwitchForm {
    /// `{ .. }`
    Braces,
    /// `: .. endswitch;`
    Colon,
}

/// A label of a `switch`, and the statements behind it.
#[derive(Drop)]
pub struct Case<S> {
    /// Of `case` or `default`.
    pub spot: Spot,
    /// `None` is `default`.
    pub value: Option<Expr>,
    pub end: CaseEnd,
    pub body: Items<S>,
}

/// What ends a label.
#[derive(Clone, Copy, Debug, PartialEq, Eq)]
pub enum CaseEnd {
    /// `:`
    Colon,
    /// `;`
    Semicolon,
}

/// `catch (Class | Class $name) { .. }`
#[derive(Drop)]
pub struct Catch<S> {
    /// One or more.
    pub classes: Items<Name>,
    pub variable: Name,
    pub body: Items<S>,
}
