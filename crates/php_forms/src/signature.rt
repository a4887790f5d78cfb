// The faults of signatures.

ghost use Rattle.std.specs.Prelude.{◌≡◌};
ghost use Rattle.php_ast.specs.declaration.View.{param_view, signature_view, type_view};
ghost use Rattle.php_ast.specs.statement.View.{optional, sequence};
ghost use Rattle.php_legality.specs.Lists.{elements};
ghost use Rattle.php_legality.specs.Declarations as meant;
ghost use Rattle.php_places.specs.Over.{over};
ghost use Rattle.php_forms.specs.Signatures as spec;

use php_ast::{BaseType, Param, Signature, Type};
use php_bodies::{check_name, check_optional, walk_optional};
use php_legality::{Fault, Kind, Scope};
use php_places::fault_if;

/// What the values in a signature belong to.
fn signature_scope(in_class: bool) -> Scope
    ensures { result ≡ meant.signature_scope in_class }
{
    Scope {
        in_class,
        in_function: false,
        is_void: false,
    }
}

fn walk_defaults(met: Option<Fault>, scope: Scope, params: &[Param]) -> Option<Fault>
    ensures { result ≡ over (spec.met_default scope) (elements (sequence param_view params.now)) met }
{
    let mut first = met;
    for param in params {
        first = walk_optional(first, scope, &param.default);
    }
    first
}

fn check_defaults(met: Option<Fault>, params: &[Param]) -> Option<Fault>
    ensures { result ≡ over spec.met_constant_default (elements (sequence param_view params.now)) met }
{
    let mut first = met;
    for param in params {
        first = check_optional(first, &param.default);
    }
    first
}

fn check_type(met: Option<Fault>, in_class: bool, t: &Type) -> Option<Fault>
    ensures { result ≡ spec.met_type in_class (type_view t.now) met }
{
    match &t.base {
        BaseType::Name(name) => check_name(met, in_class, name),
        BaseType::Array => met,
        BaseType::Callable => met,
    }
}

fn check_optional_type(met: Option<Fault>, in_class: bool, t: &Option<Type>) -> Option<Fault>
    ensures { result ≡ spec.met_optional_type in_class (optional type_view t.now) met }
{
    match t {
        None => met,
        Some(t) => check_type(met, in_class, t),
    }
}

fn check_types(met: Option<Fault>, in_class: bool, params: &[Param]) -> Option<Fault>
    ensures { result ≡ over (spec.met_declared in_class) (elements (sequence param_view params.now)) met }
{
    let mut first = met;
    for param in params {
        first = check_optional_type(first, in_class, &param.declared);
    }
    first
}

// Going over parameters.
#[derive(Clone, Copy)]
struct Passed {
    first: Option<Fault>,
    /// Whether the one that takes all further values is among them.
    has_variadic: bool,
}

fn has_default(param: &Param) -> bool
    ensures { result ≡ spec.has_default (param_view param.now) }
{
    match &param.default {
        None => false,
        Some(_) => true,
    }
}

fn is_bad_param(has_variadic: bool, param: &Param) -> bool
    ensures { result ≡ spec.is_bad_param has_variadic (param_view param.now) }
{
    if has_variadic {
        true
    } else if param.is_variadic {
        has_default(param)
    } else {
        false
    }
}

fn check_param(passed: Passed, param: &Param) -> Passed
    ensures { result ≡ spec.met_param (param_view param.now) passed }
{
    let is_bad = is_bad_param(passed.has_variadic, param);
    Passed {
        first: fault_if(passed.first, is_bad, Kind::BadUse, param.name.spot),
        has_variadic: if passed.has_variadic {
            true
        } else {
            param.is_variadic
        },
    }
}

fn pass_params(met: Option<Fault>, params: &[Param]) -> Passed
    ensures { result ≡ over spec.met_param (elements (sequence param_view params.now)) (spec.before_params met) }
{
    let mut passed = Passed {
        first: met,
        has_variadic: false,
    };
    for param in params {
        passed = check_param(passed, param);
    }
    passed
}

/// The first fault, behind those met, of a signature.
pub(crate) fn check_signature(met: Option<Fault>, in_class: bool, s: &Signature) -> Option<Fault>
    ensures { result ≡ spec.met_signature in_class (signature_view s.now) met }
{
    let params = s.params.as_slice();
    let met = walk_defaults(met, signature_scope(in_class), params);
    let met = check_defaults(met, params);
    let met = check_types(met, in_class, params);
    let met = check_optional_type(met, in_class, &s.result);
    pass_params(met, params).first
}
