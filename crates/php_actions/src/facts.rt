// What is known of a script's functions without their bodies.

use php_memdef::Name;
use php_value::Text;
use sqlite_items::Items;

/// The facts of a script. Function 0 is the script's own part. Statics below `statics` are those that its text
/// numbers, and the constants that a run defines have the following ones.
#[derive(Drop)]
pub struct Facts {
    pub functions: Items<FunctionFact>,
    pub statics: usize,
}

#[derive(Drop)]
pub struct FunctionFact {
    pub name: Text,
    /// The line of its declaration.
    pub line: u32,
    pub params: Items<ParamFact>,
    /// How many arguments a call must give.
    pub required: u32,
    /// Its result may be a link.
    pub returns_link: bool,
    pub result: Option<TypeFact>,
    /// How many temporaries its block has room for, besides those of its arguments.
    pub room: usize,
    /// The lowest temporary of its block is `$this`.
    pub has_this: bool,
    /// Its calls and returns convert nothing.
    pub is_strict: bool,
    /// It is part of every script, and its lines are 0.
    pub is_prelude: bool,
}

#[derive(Drop)]
pub struct ParamFact {
    /// The variable that it is.
    pub slot: Name,
    pub by_link: bool,
    /// It takes all further arguments.
    pub is_rest: bool,
    pub declared: Option<TypeFact>,
    pub has_default: bool,
}

#[derive(Drop)]
pub struct TypeFact {
    pub base: BaseType,
    /// Null is one of its values as well.
    pub nullable: bool,
}

#[derive(Drop)]
pub enum BaseType {
    Int,
    Str,
    Bool,
    Array,
    Callable,
    /// The class that declares the function.
    Own,
    /// The class of this name.
    Class(Text),
    Void,
}
