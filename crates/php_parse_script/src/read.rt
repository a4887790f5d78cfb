// What the parts of the parser give.

ghost use Rattle.std.specs.Prelude.{◌≡◌, true};
ghost use Rattle.php_flat.specs.Declarations.{is_flat_script, is_flat_script_item};

use php_ast::{ClassModifier, Name, Script, ScriptItem, Spot};
use sqlite_items::Items;

/// Words before `class`, and the place of `class`.
#[derive(Drop)]
pub(crate) struct ReadWords {
    pub(crate) words: Items<(Spot, ClassModifier)>,
    pub(crate) next: usize,
}

/// The parent of a class or none, and the place behind it.
#[derive(Drop)]
pub(crate) struct ReadParent {
    pub(crate) parent: Option<Name>,
    pub(crate) next: usize,
}

/// What stands before the members of a class, and the place behind it.
#[derive(Drop)]
pub(crate) struct ClassHeading {
    pub(crate) modifiers: Items<(Spot, ClassModifier)>,
    pub(crate) spot: Spot,
    pub(crate) name: Name,
    pub(crate) parent: Option<Name>,
    pub(crate) interfaces: Items<Name>,
    pub(crate) next: usize,
}

/// What stands before the members of an interface, and the place behind it.
#[derive(Drop)]
pub(crate) struct InterfaceHeading {
    pub(crate) spot: Spot,
    pub(crate) name: Name,
    pub(crate) parents: Items<Name>,
    pub(crate) next: usize,
}

/// What stands at the outermost level, and the place behind it.
#[derive(Drop)]
pub(crate) struct ReadItem {
    pub(crate) item: ScriptItem,
    pub(crate) next: usize,
    ghost flat: { is_flat_script_item item ≡ true },
}

/// A whole script.
#[derive(Drop)]
pub(crate) struct ReadScript {
    pub(crate) script: Script,
    ghost flat: { is_flat_script script ≡ true },
}
