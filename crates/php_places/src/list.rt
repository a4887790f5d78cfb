// What stands between the brackets of an array or a list.

ghost use Rattle.std.specs.Prelude.{◌≡◌};
ghost use Rattle.php_places.specs.Over.{over};
ghost use Rattle.php_places.specs.Shapes as spec;

use php_ast::{Expr, Item};

/// Which kinds of items there are. A missing one counts as one without a key.
#[derive(Clone, Copy)]
pub(crate) struct Kinds {
    pub(crate) has_missing: bool,
    pub(crate) has_keyed: bool,
    pub(crate) has_unkeyed: bool,
}

/// What was found among items.
#[derive(Clone, Copy)]
pub(crate) struct Found {
    /// One that isn't missing.
    pub(crate) has_item: bool,
    /// One behind `&`.
    pub(crate) has_reference: bool,
    pub(crate) all: Kinds,
    /// Of those without the last one, where that is missing, and else of all.
    pub(crate) trimmed: Kinds,
}

/// Nothing was found.
fn nothing() -> Found
    ensures { result ≡ spec.nothing }
{
    let kinds = Kinds {
        has_missing: false,
        has_keyed: false,
        has_unkeyed: false,
    };
    Found {
        has_item: false,
        has_reference: false,
        all: kinds,
        trimmed: kinds,
    }
}

fn with_missing(found: Found) -> Found
    ensures { result ≡ spec.with_missing found }
{
    Found {
        has_item: found.has_item,
        has_reference: found.has_reference,
        all: Kinds {
            has_missing: true,
            has_keyed: found.all.has_keyed,
            has_unkeyed: true,
        },
        trimmed: found.all,
    }
}

fn more_kinds(kinds: Kinds, is_keyed: bool) -> Kinds
    ensures { result ≡ spec.more_kinds kinds is_keyed }
{
    Kinds {
        has_missing: kinds.has_missing,
        has_keyed: if kinds.has_keyed { true } else { is_keyed },
        has_unkeyed: if kinds.has_unkeyed { true } else { !is_keyed },
    }
}

fn with_item(found: Found, is_keyed: bool, is_reference: bool) -> Found
    ensures { result ≡ spec.with_item found is_keyed is_reference }
{
    let kinds = more_kinds(found.all, is_keyed);
    Found {
        has_item: true,
        has_reference: if found.has_reference {
            true
        } else {
            is_reference
        },
        all: kinds,
        trimmed: kinds,
    }
}

fn look(found: Found, item: &Item<Expr>) -> Found
    ensures { result ≡ spec.look item.now found }
{
    match item {
        Item::Missing => with_missing(found),
        Item::Value(_) => with_item(found, false, false),
        Item::Reference(_) => with_item(found, false, true),
        Item::Keyed(_, _) => with_item(found, true, false),
        Item::KeyedReference(_, _) => with_item(found, true, true),
    }
}

/// What is found among items.
pub(crate) fn find(items: &[Item<Expr>]) -> Found
    ensures { result ≡ over spec.look items.now spec.nothing }
{
    let mut found = nothing();
    for item in items {
        found = look(found, item);
    }
    found
}

/// Whether a list with these items may not take values.
pub(crate) fn is_bad_target(found: Found) -> bool
    ensures { result ≡ spec.is_bad_target found }
{
    if !found.has_item {
        true
    } else if found.has_reference {
        true
    } else if found.trimmed.has_keyed {
        found.trimmed.has_unkeyed
    } else {
        false
    }
}
