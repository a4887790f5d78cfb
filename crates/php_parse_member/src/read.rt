// What the parts of the parser give.

ghost use Rattle.std.specs.Prelude.{◌≡◌, true};
ghost use Rattle.php_flat.specs.Declarations.{are_flat_members, is_flat_class_constant, is_flat_function, is_flat_member, is_flat_signature};
ghost use Rattle.php_flat.specs.Statements.{is_flat_list, is_flat_variable};
ghost use Rattle.std.specs.List.{list_all};

use php_ast::{
    ClassConstant, ClassMember, FunctionDecl, Name, Rule, Signature, Stmt, VariableItem,
    Visibility, Word,
};
use sqlite_items::Items;

/// A constant and its value, and the place behind it.
#[derive(Drop)]
pub(crate) struct ReadConstant {
    pub(crate) constant: ClassConstant,
    pub(crate) next: usize,
    ghost flat: { is_flat_class_constant constant ≡ true },
}

/// Constants, and the place behind the `;` that ends them.
#[derive(Drop)]
pub(crate) struct ReadConstants {
    pub(crate) constants: Items<ClassConstant>,
    pub(crate) next: usize,
    ghost flat: { list_all is_flat_class_constant constants ≡ true },
}

/// A property with a value or none, and the place behind it.
#[derive(Drop)]
pub(crate) struct ReadProperty {
    pub(crate) property: VariableItem,
    pub(crate) next: usize,
    ghost flat: { is_flat_variable property ≡ true },
}

/// Properties, and the place behind the `;` that ends them.
#[derive(Drop)]
pub(crate) struct ReadProperties {
    pub(crate) properties: Items<VariableItem>,
    pub(crate) next: usize,
    ghost flat: { list_all is_flat_variable properties ≡ true },
}

/// The first words of a rule: a class or none, and a method; and the place behind them.
#[derive(Drop)]
pub(crate) struct RuleHead {
    pub(crate) origin: Option<Name>,
    pub(crate) word: Word,
    pub(crate) next: usize,
}

/// What stands behind `as` in a rule, and the place of its `;`.
#[derive(Drop)]
pub(crate) struct RuleTail {
    pub(crate) seen: Option<Visibility>,
    pub(crate) alias: Option<Word>,
    pub(crate) next: usize,
}

/// A rule, and the place behind its `;`.
#[derive(Drop)]
pub(crate) struct ReadRule {
    pub(crate) rule: Rule,
    pub(crate) next: usize,
}

/// Rules, and the place behind the `}` that ends them.
#[derive(Drop)]
pub(crate) struct ReadRules {
    pub(crate) rules: Items<Rule>,
    pub(crate) next: usize,
}

/// A function without its block, and the place behind its signature.
#[derive(Drop)]
pub(crate) struct FunctionHead {
    pub(crate) is_reference: bool,
    pub(crate) name: Name,
    pub(crate) signature: Signature,
    pub(crate) next: usize,
    ghost flat: { is_flat_signature signature ≡ true },
}

/// A method without its modifiers and its block, and the place behind its signature.
#[derive(Drop)]
pub(crate) struct MethodHead {
    pub(crate) is_reference: bool,
    pub(crate) name: Word,
    pub(crate) signature: Signature,
    pub(crate) next: usize,
    ghost flat: { is_flat_signature signature ≡ true },
}

/// The statements of a method's block, or none where `;` stands in its place; and the place behind it.
#[derive(Drop)]
pub(crate) struct ReadBody {
    pub(crate) body: Option<Items<Stmt>>,
    pub(crate) next: usize,
    ghost flat: { is_flat_list body ≡ true },
}

/// A method without its modifiers, and the place behind it.
#[derive(Drop)]
pub(crate) struct ReadMethod {
    pub(crate) is_reference: bool,
    pub(crate) name: Word,
    pub(crate) signature: Signature,
    pub(crate) body: Option<Items<Stmt>>,
    pub(crate) next: usize,
    ghost signed: { is_flat_signature signature ≡ true },
    ghost bodied: { is_flat_list body ≡ true },
}

/// A function, and the place behind it.
#[derive(Drop)]
pub struct ReadFunction {
    pub function: FunctionDecl,
    pub next: usize,
    pub ghost flat: { is_flat_function function ≡ true },
}

/// A member of a class, an interface or a trait, and the place behind it.
#[derive(Drop)]
pub struct ReadMember {
    pub member: ClassMember,
    pub next: usize,
    pub ghost flat: { is_flat_member member ≡ true },
}

/// Members, and the place behind the `}` that ends them.
#[derive(Drop)]
pub struct ReadMembers {
    pub members: Items<ClassMember>,
    pub next: usize,
    pub ghost flat: { are_flat_members members ≡ true },
}
