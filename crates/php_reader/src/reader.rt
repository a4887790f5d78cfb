// What every production reads from.

ghost use Rattle.std.specs.Prelude.{◌≤◌, ◌+◌};
ghost use Rattle.php_grammar.specs.TooDeep.{nesting_limit};

use php_lex::Tokens;
use std::alloc::Global;

/// The tokens of a script, what trees are kept by, and how many levels of nesting are left. Where one is left, what is
/// read next may stand, and nothing may nest in it; where none is left, its first token is nested too deep.
#[derive(Clone, Copy)]
pub struct Reader<'t> {
    pub alloc: Global,
    pub tokens: &'t Tokens<'t>,
    pub room: usize,
    pub ghost shallow: { room ≤ nesting_limit + 1 },
}
