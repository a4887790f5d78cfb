// Variables by their names.
ghost use Rattle.std.specs.Prelude.{◌≡◌, None, map, IfSome, IfNone};
ghost use Rattle.php_memdef.specs.Places.{variable_store};
ghost use Rattle.php_memplain_cells.specs.Seen.{variable_seen, scope_seen};
ghost use Rattle.php_memplain_blocks.specs.Rooms.{HasWaitingRoom};
ghost use Rattle.php_memplain_blocks.specs.Variables.{forget_scope, StandsAt};

use crate::blocks::fall_last;
use php_memplain_cells::{Block, Item, Variable};

// Where the variable of a name stands.
fn variable_place(variables: &Vec<Variable>, name: u32) -> Option<usize>
    ensures some { IfSome result (λ k. StandsAt name variables.now.items k) }
    ensures none { IfNone result (variable_store (map variable_seen variables.now.items) name ≡ None) }
{
    let mut at = 0;
    while at < variables.len() {
        let variable = &variables[at];
        if variable.name == name {
            return Some(at);
        }
        at += 1;
    }
    None
}

/// Removes the variable of a name where there is one, and lets its store fall, for which there is
/// room.
pub fn forget_variable(block: &mut Block, name: u32)
    requires { HasWaitingRoom block.old }
    ensures { scope_seen block.new ≡ forget_scope name (variable_store (scope_seen block.old).variables name) (scope_seen block.old) }
{
    match variable_place(&block.variables, name) {
        Some(at) => {
            let variable = block.variables.remove(at);
            fall_last(block, Item::Link(variable.store));
        }
        None => {}
    }
}
