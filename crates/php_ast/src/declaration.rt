// Functions, classes, interfaces and traits.

use crate::expression::Expr;
use crate::spot::{Name, Spot, Word};
use crate::statement::{Stmt, VariableItem};
use sqlite_items::Items;

/// A type of a parameter or a result.
#[derive(Drop)]
pub struct Type {
    /// Whether `?` stands before it.
    pub is_nullable: bool,
    pub base: BaseType,
}

/// A type without its `?`.
#[derive(Drop)]
pub enum BaseType {
    /// A name: of a class, or one of the names that types have.
    Name(Name),
    /// `array`
    Array,
    /// `callable`
    Callable,
}

/// A parameter.
#[derive(Drop)]
pub struct Param {
    pub declared: Option<Type>,
    /// Whether `&` stands before the name.
    pub is_reference: bool,
    /// Whether `...` stands before the name.
    pub is_variadic: bool,
    pub name: Name,
    pub default: Option<Expr>,
}

/// The parameters of a function, and the type of its result.
#[derive(Drop)]
pub struct Signature {
    pub params: Items<Param>,
    pub result: Option<Type>,
}

/// `function name(..) { .. }`
#[derive(Drop)]
pub struct FunctionDecl {
    /// Of `function`.
    pub spot: Spot,
    /// Whether `&` stands before the name.
    pub is_reference: bool,
    pub name: Name,
    pub signature: Signature,
    pub body: Items<Stmt>,
}

/// A word before `class`.
#[derive(Clone, Copy, Debug, PartialEq, Eq)]
pub enum ClassModifier {
    /// `abstract`
    Abstract,
    /// `final`
    Final,
}

/// A class.
#[derive(Drop)]
pub struct ClassDecl {
    pub modifiers: Items<(Spot, ClassModifier)>,
    /// Of `class`.
    pub spot: Spot,
    pub name: Name,
    pub parent: Option<Name>,
    /// Behind `implements`; none where that word is absent.
    pub interfaces: Items<Name>,
    pub members: Items<ClassMember>,
}

/// An interface.
#[derive(Drop)]
pub struct InterfaceDecl {
    /// Of `interface`.
    pub spot: Spot,
    pub name: Name,
    /// Behind `extends`; none where that word is absent.
    pub parents: Items<Name>,
    pub members: Items<ClassMember>,
}

/// A trait.
#[derive(Drop)]
pub struct TraitDecl {
    /// Of `trait`.
    pub spot: Spot,
    pub name: Name,
    pub members: Items<ClassMember>,
}

/// A member of a class, an interface or a trait.
#[derive(Drop)]
pub enum ClassMember {
    /// `use T, ..;` and `use T, .. { rules }`
    Use(Spot, Items<Name>, Option<Items<Rule>>),
    /// Constants.
    Const(Items<Modifier>, Items<ClassConstant>),
    /// A method.
    Method(Method),
    /// Properties. At least one modifier stands before them.
    Properties(Items<Modifier>, Items<VariableItem>),
}

/// A word before a member, with its spot.
#[derive(Clone, Copy, Debug, PartialEq, Eq)]
pub struct Modifier {
    pub spot: Spot,
    pub word: ModifierWord,
}

/// A word before a member.
#[derive(Clone, Copy, Debug, PartialEq, Eq)]
pub enum ModifierWord {
    /// `public`
    Public,
    /// `protected`
    Protected,
    /// `private`
    Private,
    /// `static`
    Static,
    /// `abstract`
    Abstract,
    /// `final`
    Final,
    /// `var`
    Var,
}

/// A constant of a class and its value.
#[derive(Drop)]
pub struct ClassConstant {
    pub name: Word,
    pub value: Expr,
}

/// A method.
#[derive(Drop)]
pub struct Method {
    pub modifiers: Items<Modifier>,
    /// Of `function`.
    pub spot: Spot,
    /// Whether `&` stands before the name.
    pub is_reference: bool,
    pub name: Word,
    pub signature: Signature,
    /// `None` is `;` in place of a body.
    pub body: Option<Items<Stmt>>,
}

/// A rule on the methods of used traits, with the spot of its first token.
#[derive(Drop)]
pub enum Rule {
    /// `Class::method as visibility alias;`, where the class, the visibility and the alias may be
    /// left out.
    As(Spot, Option<Name>, Word, Option<Visibility>, Option<Word>),
    /// `Class::method insteadof Class, ..;`
    InsteadOf(Spot, Name, Word, Items<Name>),
}

/// Who may use a member.
#[derive(Clone, Copy, Debug, PartialEq, Eq)]
pub enum Visibility {
    /// `public`
    Public,
    /// `protected`
    Protected,
    /// `private`
    Private,
}
