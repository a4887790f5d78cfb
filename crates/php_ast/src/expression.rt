// Expressions. A run of one power that groups from the left is one node with a list, and so are the
// suffixes of an operand: what the limit of nesting does not count lies side by side in a list, so
// that a walk over a tree, or its end, takes no more stack than the nesting allows.

use crate::operator::{ArrayForm, Assign, Binary, Count, Magic, Prefix};
use crate::spot::{Name, Spot, Word};
use php_value::Text;
use sqlite_items::{Boxed, Items};

/// An expression. The spot of a form is that of its first token; a form without one begins with the
/// first token of its first part.
///
/// Every node and every element of a list is as large as the largest variant, so a part that is large
/// and seldom there stands in a box.
#[derive(Drop)]
pub enum Expr {
    /// `$name`
    Variable(Name),
    /// An integer as it is written, or the negative key of an element in a template.
    Int(Spot, i64),
    /// A text without parts.
    Str(Spot, Text),
    /// A bare name: of a constant, or of a function or a class that suffixes follow.
    Name(Name),
    /// `static :: name`
    StaticMember(Spot, Boxed<Member>),
    /// A text with parts.
    Template(Spot, Items<Piece<Expr>>),
    /// An expression in parentheses.
    Group(Spot, Boxed<Expr>),
    /// `[..]`, `array(..)` or `list(..)`. No item stands for no token between the brackets, and a
    /// last item that is missing for a comma at the end. An item that is missing never stands alone.
    Array(Spot, ArrayForm, Items<Item<Expr>>),
    /// `isset(..)`, of one operand or more.
    IsSet(Spot, Items<Expr>),
    /// `empty(..)`
    Empty(Spot, Boxed<Expr>),
    /// `exit` alone
    Exit(Spot),
    /// `exit()`
    ExitEmpty(Spot),
    /// `exit(..)`
    ExitWith(Spot, Boxed<Expr>),
    /// `__LINE__` and its kin.
    Magic(Spot, Magic),
    /// An operand with its suffixes, one or more. The operand is none of `new`.
    Chain(Boxed<Self>, Items<Suffix<Self>>),
    /// `new` without arguments
    New(Spot, Boxed<Class<Expr>>),
    /// `new` with arguments in parentheses
    NewWith(Spot, Boxed<Class<Expr>>, Items<Argument<Expr>>),
    /// A prefix operator and its operand.
    Prefix(Spot, Prefix, Boxed<Expr>),
    /// `operand++` or `operand--`
    Count(Boxed<Expr>, Count),
    /// Operators of one power that groups from the left: the first operand, then one link or more.
    Run(Boxed<Self>, Items<Link<Self>>),
    /// An operator whose power groups from the right or not at all.
    Binary(Binary, Boxed<Expr>, Boxed<Expr>),
    /// `left instanceof class`. The class is an operand that is no call.
    InstanceOf(Boxed<Expr>, Boxed<Expr>),
    /// `left instanceof static`
    InstanceOfStatic(Boxed<Expr>, Spot),
    /// `target = value`, and the operators with `=`
    Assign(Assign, Boxed<Expr>, Boxed<Expr>),
    /// `target = & source`
    AssignReference(Boxed<Expr>, Boxed<Expr>),
    /// `yield` alone
    YieldNothing(Spot),
    /// `yield value`
    Yield(Spot, Boxed<Expr>),
    /// `yield key => value`
    YieldPair(Spot, Boxed<Expr>, Boxed<Expr>),
}

/// A piece of a text with parts.
#[derive(Drop)]
pub enum Piece<E> {
    /// Bytes.
    Bytes(Text),
    /// The value of an expression.
    Part(E),
}

/// What stands between two commas of an array or a list.
#[derive(Drop)]
pub enum Item<E> {
    /// Nothing.
    Missing,
    /// `value`
    Value(E),
    /// `& place`
    Reference(E),
    /// `key => value`
    Keyed(E, E),
    /// `key => & place`
    KeyedReference(E, E),
}

/// An argument of a call.
#[derive(Drop)]
pub enum Argument<E> {
    /// `value`
    Value(E),
    /// `... values`
    Spread(E),
}

/// What may stand behind an operand.
#[derive(Drop)]
pub enum Suffix<E> {
    /// `[]`
    Append,
    /// `[key]`
    Index(E),
    /// `-> name`
    Property(Named<E>),
    /// `:: name`
    Member(Member),
    /// `(arguments)`
    Call(Items<Argument<E>>),
}

/// The name behind `::`.
#[derive(Drop)]
pub enum Member {
    /// `name`
    Word(Word),
    /// `$name`
    Variable(Name),
}

/// The name behind `->`.
#[derive(Drop)]
pub enum Named<E> {
    /// `name`
    Word(Word),
    /// `$name`
    Variable(Name),
    /// `{name}`
    Computed(E),
}

/// The class behind `new`.
#[derive(Drop)]
pub enum Class<E> {
    /// `Name`
    Name(Name),
    /// `static`
    Static(Spot),
    /// `$name` and its steps
    Variable(Name, Items<ClassStep<E>>),
}

/// A step from a variable to the name of a class.
#[derive(Drop)]
pub enum ClassStep<E> {
    /// `-> name`
    Property(Word),
    /// `[key]`
    Index(E),
}

/// A further operand of a run.
#[derive(Drop)]
pub enum Link<E> {
    /// An operator that groups from the left, and its right side.
    Operator(Binary, E),
    /// `? middle : right`
    Choice(E, E),
    /// `? : right`
    ShortChoice(E),
}
