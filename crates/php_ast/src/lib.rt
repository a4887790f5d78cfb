// Trees of scripts, and the grammar: which tokens spell which tree.
#![tactic(auto)]

mod declaration;
mod expression;
mod operator;
mod power;
mod script;
mod spot;
mod statement;

pub use declaration::{
    BaseType, ClassConstant, ClassDecl, ClassMember, ClassModifier, FunctionDecl, InterfaceDecl,
    Method, Modifier, ModifierWord, Param, Rule, Signature, TraitDecl, Type, Visibility,
};
pub use expression::{Argument, Class, ClassStep, Expr, Item, Link, Member, Named, Piece, Suffix};
pub use operator::{ArrayForm, Assign, Binary, Count, Magic, Prefix};
pub use power::{
    Grouping, Row, power_of_yield, prefix_power_of, row_of, row_of_assignment, row_of_choice,
    row_of_instance_of,
};
pub use script::{Script, ScriptItem};
pub use spot::{Name, Spot, Word};
pub use statement::{
    Body, Case, CaseEnd, Catch, ConstantItem, ElseIf, ForHead, ForeachHead, Stmt, SwitchForm,
    Target, VariableItem,
};
