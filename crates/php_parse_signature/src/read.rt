// What the parts of the parser give.

ghost use Rattle.std.specs.Prelude.{◌≡◌, true};
ghost use Rattle.php_flat.specs.Declarations.{are_flat_params, is_flat_param, is_flat_signature};
ghost use Rattle.php_flat.specs.Statements.{is_flat_optional};

use php_ast::{Expr, Name, Param, Signature, Type};
use sqlite_items::Items;

/// A type or none, and the place behind it.
#[derive(Drop)]
pub(crate) struct Typed {
    pub(crate) declared: Option<Type>,
    pub(crate) next: usize,
}

/// A parameter without its value, and the place behind it.
#[derive(Drop)]
pub(crate) struct Front {
    pub(crate) declared: Option<Type>,
    pub(crate) is_reference: bool,
    pub(crate) is_variadic: bool,
    pub(crate) name: Name,
    pub(crate) next: usize,
}

/// The value of a parameter or none, and the place behind it.
#[derive(Drop)]
pub(crate) struct Valued {
    pub(crate) default: Option<Expr>,
    pub(crate) next: usize,
    ghost flat: { is_flat_optional default ≡ true },
}

/// A parameter, and the place behind it.
#[derive(Drop)]
pub(crate) struct ReadParam {
    pub(crate) param: Param,
    pub(crate) next: usize,
    ghost flat: { is_flat_param param ≡ true },
}

/// Parameters, and the place behind the `)` that ends them.
#[derive(Drop)]
pub(crate) struct ReadParams {
    pub(crate) params: Items<Param>,
    pub(crate) next: usize,
    ghost flat: { are_flat_params params ≡ true },
}

/// A signature, and the place behind it.
#[derive(Drop)]
pub struct ReadSignature {
    pub signature: Signature,
    pub next: usize,
    pub ghost flat: { is_flat_signature signature ≡ true },
}
