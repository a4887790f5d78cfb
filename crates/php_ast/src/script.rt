// Whole scripts.

use crate::declaration::{ClassDecl, FunctionDecl, InterfaceDecl, TraitDecl};
use crate::statement::Stmt;
use sqlite_items::Items;

/// A script.
#[derive(Drop)]
pub struct Script {
    pub items: Items<ScriptItem>,
}

/// What stands at the outermost level of a script.
#[derive(Drop)]
pub enum ScriptItem {
    Statement(Stmt),
    Function(FunctionDecl),
    Class(ClassDecl),
    Interface(InterfaceDecl),
    Trait(TraitDecl),
}
