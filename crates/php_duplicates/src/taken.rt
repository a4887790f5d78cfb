// Names that are taken before a script begins.

ghost use Rattle.std.specs.Prelude.{◌≡◌, map};
ghost use Rattle.std.specs.Str.{str_eq_ignore_ascii_case};
ghost use Rattle.php_ast.specs.declaration.View.{item_view};
ghost use Rattle.php_ast.specs.statement.View.{name_view};
ghost use Rattle.php_legality.specs.Taken as spec;
ghost use Rattle.php_duplicates.specs.Over.{over};
ghost use Rattle.php_duplicates.specs.Met as met_spec;
ghost use Rattle.php_duplicates.specs.NamesTaken.{names_taken};

use crate::seen::met_if;
use php_ast::{Name, ScriptItem};
use php_legality::Fault;

const LIBRARY_FUNCTIONS: [&[u8]; 74] = [
    b"strlen",
    b"substr",
    b"strpos",
    b"strrpos",
    b"str_replace",
    b"str_repeat",
    b"strrev",
    b"trim",
    b"ltrim",
    b"rtrim",
    b"explode",
    b"implode",
    b"join",
    b"str_pad",
    b"str_split",
    b"strcmp",
    b"ord",
    b"chr",
    b"dechex",
    b"bin2hex",
    b"htmlspecialchars",
    b"ctype_digit",
    b"sprintf",
    b"printf",
    b"abs",
    b"intdiv",
    b"min",
    b"max",
    b"count",
    b"array_keys",
    b"array_values",
    b"array_merge",
    b"array_slice",
    b"array_sum",
    b"array_reverse",
    b"in_array",
    b"array_search",
    b"array_key_exists",
    b"array_flip",
    b"array_unique",
    b"array_fill",
    b"array_combine",
    b"range",
    b"array_push",
    b"array_unshift",
    b"array_pop",
    b"array_shift",
    b"sort",
    b"rsort",
    b"ksort",
    b"is_null",
    b"is_bool",
    b"is_int",
    b"is_string",
    b"is_array",
    b"is_object",
    b"is_callable",
    b"is_numeric",
    b"gettype",
    b"intval",
    b"strval",
    b"boolval",
    b"get_class",
    b"get_parent_class",
    b"method_exists",
    b"property_exists",
    b"function_exists",
    b"class_exists",
    b"is_a",
    b"get_object_vars",
    b"define",
    b"defined",
    b"var_dump",
    b"print_r",
];

const PRELUDE_FUNCTIONS: [&[u8]; 7] = [
    b"array_map",
    b"array_filter",
    b"array_reduce",
    b"array_walk",
    b"call_user_func",
    b"call_user_func_array",
    b"iterator_to_array",
];

const BUILT_IN_CLASSES: [&[u8]; 9] = [
    b"Traversable",
    b"Throwable",
    b"Exception",
    b"Error",
    b"ArithmeticError",
    b"TypeError",
    b"DivisionByZeroError",
    b"ArgumentCountError",
    b"Generator",
];

/// Names that are taken already.
#[derive(Clone, Copy, Debug, PartialEq, Eq)]
pub(crate) enum Taken {
    LibraryFunctions,
    PreludeFunctions,
    BuiltInClasses,
}

fn is_word(name: &[u8], expected: &[u8]) -> bool
    ensures { result ≡ str_eq_ignore_ascii_case expected.now name.now }
{
    expected.eq_ignore_ascii_case(name)
}

fn is_among(mut table: &[&[u8]], name: &[u8]) -> bool
    ensures { result ≡ spec.is_one_of (map (λ word. word.now) table.entry.now) name.now }
{
    while let [first, rest @ ..] = table {
        if is_word(name, first) {
            return true;
        }
        table = rest;
    }
    false
}

#[tactic(auto, unfolding(php_legality::specs::Taken::library_functions))]
fn is_library_function(name: &[u8]) -> bool
    ensures { result ≡ spec.is_one_of spec.library_functions name.now }
{
    is_among(&LIBRARY_FUNCTIONS, name)
}

#[tactic(auto, unfolding(php_legality::specs::Taken::prelude_functions))]
fn is_prelude_function(name: &[u8]) -> bool
    ensures { result ≡ spec.is_one_of spec.prelude_functions name.now }
{
    is_among(&PRELUDE_FUNCTIONS, name)
}

#[tactic(auto, unfolding(php_legality::specs::Taken::built_in_classes))]
fn is_built_in_class(name: &[u8]) -> bool
    ensures { result ≡ spec.is_one_of spec.built_in_classes name.now }
{
    is_among(&BUILT_IN_CLASSES, name)
}

fn is_taken(taken: Taken, name: &[u8]) -> bool
    ensures { result ≡ spec.is_one_of (names_taken taken) name.now }
{
    match taken {
        Taken::LibraryFunctions => is_library_function(name),
        Taken::PreludeFunctions => is_prelude_function(name),
        Taken::BuiltInClasses => is_built_in_class(name),
    }
}

#[tactic(auto, unfolding(crate::specs::Met::met_name))]
fn met_name(met: Option<Fault>, taken: Taken, name: &Name) -> Option<Fault>
    ensures { result ≡ met_spec.met_name (names_taken taken) (name_view name.now) met }
{
    met_if(met, is_taken(taken, name.text.bytes()), name.spot)
}

fn taken_function(met: Option<Fault>, taken: Taken, item: &ScriptItem) -> Option<Fault>
    ensures { result ≡ met_spec.taken_function (names_taken taken) (item_view item.now) met }
{
    match item {
        ScriptItem::Function(function) => met_name(met, taken, &function.name),
        ScriptItem::Statement(_) => met,
        ScriptItem::Class(_) => met,
        ScriptItem::Interface(_) => met,
        ScriptItem::Trait(_) => met,
    }
}

/// The first function, behind what was met, with a name that is taken already.
pub(crate) fn taken_functions(
    met: Option<Fault>,
    taken: Taken,
    items: &[ScriptItem],
) -> Option<Fault>
    ensures { result ≡ over (met_spec.taken_function (names_taken taken)) (map item_view items.now) met }
{
    let mut first = met;
    for item in items {
        first = taken_function(first, taken, item);
    }
    first
}

fn taken_class(met: Option<Fault>, taken: Taken, item: &ScriptItem) -> Option<Fault>
    ensures { result ≡ met_spec.taken_class (names_taken taken) (item_view item.now) met }
{
    match item {
        ScriptItem::Class(class) => met_name(met, taken, &class.name),
        ScriptItem::Interface(interface) => met_name(met, taken, &interface.name),
        ScriptItem::Trait(declared) => met_name(met, taken, &declared.name),
        ScriptItem::Statement(_) => met,
        ScriptItem::Function(_) => met,
    }
}

/// Likewise the first class, interface or trait.
pub(crate) fn taken_classes(met: Option<Fault>, taken: Taken, items: &[ScriptItem]) -> Option<Fault>
    ensures { result ≡ over (met_spec.taken_class (names_taken taken)) (map item_view items.now) met }
{
    let mut first = met;
    for item in items {
        first = taken_class(first, taken, item);
    }
    first
}
