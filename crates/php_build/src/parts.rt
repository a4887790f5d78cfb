// Parts of trees.

ghost use Rattle.std.specs.Prelude.{◌≡◌, ◌≢◌, ◌++◌, [], ◌∷◌, IfOk};
ghost use Rattle.php_ast.specs.declared.expression.Item.TheVariants.{Missing};
ghost use Rattle.php_build.specs.Parts.{is_call_suffix};

use php_ast::{Expr, Item, Suffix};
use sqlite_items::Items;
use std::alloc::AllocError;

/// The items where a list ends behind a comma, or behind its opening token. An error comes for want of memory.
pub fn ended(items: Items<Item<Expr>>) -> Result<Items<Item<Expr>>, AllocError>
    ensures none { items ≡ [] → IfOk result (λ r. r ≡ []) }
    ensures some { items ≢ [] → IfOk result (λ r. r ≡ items ++ Missing ∷ []) }
{
    if items.is_empty() {
        return Ok(items);
    }
    let mut items = items;
    items.push(Item::Missing)?;
    Ok(items)
}

/// Whether a suffix is a call.
pub fn is_call_suffix(suffix: &Suffix<Expr>) -> bool
    ensures { result ≡ is_call_suffix suffix.now }
{
    match suffix {
        Suffix::Call(_) => true,
        Suffix::Append | Suffix::Index(_) | Suffix::Property(_) | Suffix::Member(_) => false,
    }
}
