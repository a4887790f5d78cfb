// Whole scripts.

ghost use Rattle.std.specs.Prelude.{◌≡◌, None, map};
ghost use Rattle.php_ast.specs.declaration.View.{class_word_view, item_view, script_view};
ghost use Rattle.php_ast.specs.expression.View.{spot_view};
ghost use Rattle.php_runnable.specs.Told.{IsScriptTold};
ghost use Rattle.php_told.specs.First as spec;
ghost use Rattle.php_told.specs.Noted.{noted};
ghost use Rattle.php_told.specs.Parts as part;

use crate::statement::first_in_statement;
use php_ast::{ClassModifier, Script, ScriptItem, Spot};

/// The first of the words before `class`, or else that.
fn first_word(spot: Spot, words: &[(Spot, ClassModifier)]) -> Spot
    ensures { spot_view result ≡ spec.first_word (spot_view spot) (map class_word_view words.now) }
{
    match words {
        [] => spot,
        [(first, _), ..] => *first,
    }
}

fn first_in_item(item: &ScriptItem) -> Option<Spot>
    ensures { noted result ≡ spec.first_in_item (item_view item.now) }
{
    match item {
        ScriptItem::Statement(s) => first_in_statement(s),
        ScriptItem::Function(function) => Some(function.spot),
        ScriptItem::Class(class) => Some(first_word(class.spot, class.modifiers.as_slice())),
        ScriptItem::Interface(interface) => Some(interface.spot),
        ScriptItem::Trait(item) => Some(item.spot),
    }
}

fn first_in_items(items: &[ScriptItem]) -> Option<Spot>
    ensures { noted result ≡ part.first_of spec.first_in_item (map item_view items.now) }
{
    for item in items {
        if let Some(spot) = first_in_item(item) {
            return Some(spot);
        }
    }
    None
}

/// The first token of the first form of a script that isn't told, and so isn't run today. `None` exactly where all forms are told.
pub fn first_not_told(script: &Script) -> Option<Spot>
    ensures exact { noted result ≡ spec.first_not_told (script_view script.now) }
    ensures told { result ≡ None → IsScriptTold (script_view script.now) }
    ensures only { IsScriptTold (script_view script.now) → result ≡ None }
{
    first_in_items(script.items.as_slice())
}
