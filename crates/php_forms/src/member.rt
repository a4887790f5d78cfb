// The faults of the members of a class, an interface or a trait.

ghost use Rattle.std.specs.Prelude.{◌≡◌};
ghost use Rattle.php_ast.specs.declaration.View.{class_constant_view, member_view, method_view, rule_view};
ghost use Rattle.php_ast.specs.statement.View.{sequence, variable_view};
ghost use Rattle.php_legality.specs.Lists.{elements};
ghost use Rattle.php_legality.specs.Declarations as meant;
ghost use Rattle.php_legality.specs.Rows as rows;
ghost use Rattle.php_places.specs.Over.{over};
ghost use Rattle.php_forms.specs.MemberFaults as spec;

use crate::modifiers::{check_modifiers, is_abstract};
use php_ast::{ClassConstant, ClassMember, Method, Rule, VariableItem};
use php_bodies::{check_constant, check_variables, walk_value, walk_variables};
use php_legality::{Fault, Kind, Scope};
use php_places::fault_if;

/// What the values of members belong to.
fn class_scope() -> Scope
    ensures { result ≡ meant.class_scope }
{
    Scope {
        in_class: true,
        in_function: false,
        is_void: false,
    }
}

fn walk_class_constants(met: Option<Fault>, constants: &[ClassConstant]) -> Option<Fault>
    ensures { result ≡ over spec.met_class_constant (elements (sequence class_constant_view constants.now)) met }
{
    let mut first = met;
    for constant in constants {
        first = walk_value(first, class_scope(), &constant.value);
    }
    first
}

fn check_class_constants(met: Option<Fault>, constants: &[ClassConstant]) -> Option<Fault>
    ensures { result ≡ over spec.met_constant_value (elements (sequence class_constant_view constants.now)) met }
{
    let mut first = met;
    for constant in constants {
        first = check_constant(first, &constant.value);
    }
    first
}

fn walk_member_values(met: Option<Fault>, member: &ClassMember) -> Option<Fault>
    ensures { result ≡ spec.met_values (member_view member.now) met }
{
    match member {
        ClassMember::Properties(_, variables) => walk_variables(
            met,
            class_scope(),
            variables.as_slice(),
        ),
        ClassMember::Const(_, constants) => walk_class_constants(met, constants.as_slice()),
        ClassMember::Use(_, _, _) | ClassMember::Method(_) => met,
    }
}

fn check_member_values(met: Option<Fault>, member: &ClassMember) -> Option<Fault>
    ensures { result ≡ spec.met_constants (member_view member.now) met }
{
    match member {
        ClassMember::Properties(_, variables) => check_variables(met, variables.as_slice()),
        ClassMember::Const(_, constants) => check_class_constants(met, constants.as_slice()),
        ClassMember::Use(_, _, _) | ClassMember::Method(_) => met,
    }
}

fn has_body(method: &Method) -> bool
    ensures { result ≡ spec.has_body (method_view method.now) }
{
    match &method.body {
        None => false,
        Some(_) => true,
    }
}

fn is_bad_body(in_interface: bool, method: &Method) -> bool
    ensures { result ≡ rows.is_bad_body (spec.owner_of in_interface) (method_view method.now) }
{
    if in_interface {
        has_body(method)
    } else if is_abstract(method.modifiers.as_slice()) {
        has_body(method)
    } else {
        !has_body(method)
    }
}

fn check_body(met: Option<Fault>, in_interface: bool, member: &ClassMember) -> Option<Fault>
    ensures { result ≡ spec.met_body (spec.owner_of in_interface) (member_view member.now) met }
{
    match member {
        ClassMember::Method(method) => {
            fault_if(
                met,
                is_bad_body(in_interface, method),
                Kind::BadUse,
                method.name.spot,
            )
        }
        ClassMember::Use(_, _, _) | ClassMember::Const(_, _) | ClassMember::Properties(_, _) => met,
    }
}

fn check_member_modifiers(met: Option<Fault>, member: &ClassMember) -> Option<Fault>
    ensures { result ≡ spec.met_member_modifiers (member_view member.now) met }
{
    match member {
        ClassMember::Const(modifiers, _) => check_modifiers(met, modifiers.as_slice()),
        ClassMember::Method(method) => check_modifiers(met, method.modifiers.as_slice()),
        ClassMember::Properties(modifiers, _) => check_modifiers(met, modifiers.as_slice()),
        ClassMember::Use(_, _, _) => met,
    }
}

fn check_property_names(met: Option<Fault>, variables: &[VariableItem]) -> Option<Fault>
    ensures { result ≡ over spec.met_property (elements (sequence variable_view variables.now)) met }
{
    let mut first = met;
    for variable in variables {
        first = fault_if(first, true, Kind::BadUse, variable.name.spot);
    }
    first
}

fn check_properties(met: Option<Fault>, in_interface: bool, member: &ClassMember) -> Option<Fault>
    ensures { result ≡ spec.met_properties (spec.owner_of in_interface) (member_view member.now) met }
{
    if in_interface {
        match member {
            ClassMember::Properties(_, variables) => check_property_names(
                met,
                variables.as_slice(),
            ),
            ClassMember::Use(_, _, _) | ClassMember::Const(_, _) | ClassMember::Method(_) => met,
        }
    } else {
        met
    }
}

fn check_rule(met: Option<Fault>, rule: &Rule) -> Option<Fault>
    ensures { result ≡ spec.met_rule (rule_view rule.now) met }
{
    match rule {
        Rule::As(spot, _, _, None, None) => fault_if(met, true, Kind::BadUse, *spot),
        Rule::As(_, _, _, None, Some(_)) => met,
        Rule::As(_, _, _, Some(_), _) => met,
        Rule::InsteadOf(_, _, _, _) => met,
    }
}

fn check_rule_list(met: Option<Fault>, rules: &[Rule]) -> Option<Fault>
    ensures { result ≡ over spec.met_rule (elements (sequence rule_view rules.now)) met }
{
    let mut first = met;
    for rule in rules {
        first = check_rule(first, rule);
    }
    first
}

fn check_rules(met: Option<Fault>, member: &ClassMember) -> Option<Fault>
    ensures { result ≡ spec.met_rules (member_view member.now) met }
{
    match member {
        ClassMember::Use(_, _, None) => met,
        ClassMember::Use(_, _, Some(rules)) => check_rule_list(met, rules.as_slice()),
        ClassMember::Const(_, _) | ClassMember::Method(_) | ClassMember::Properties(_, _) => met,
    }
}

#[tactic(auto, unfolding(crate::specs::MemberFaults::met_member))]
fn check_member(met: Option<Fault>, in_interface: bool, member: &ClassMember) -> Option<Fault>
    ensures { result ≡ spec.met_member (spec.owner_of in_interface) (member_view member.now) met }
{
    let met = walk_member_values(met, member);
    let met = check_member_values(met, member);
    let met = check_body(met, in_interface, member);
    let met = check_member_modifiers(met, member);
    let met = check_properties(met, in_interface, member);
    check_rules(met, member)
}

/// The first fault, behind those met, of members, without those of their signatures and bodies.
pub(crate) fn check_members(
    met: Option<Fault>,
    in_interface: bool,
    members: &[ClassMember],
) -> Option<Fault>
    ensures { result ≡ over (spec.met_member (spec.owner_of in_interface)) (elements (sequence member_view members.now)) met }
{
    let mut first = met;
    for member in members {
        first = check_member(first, in_interface, member);
    }
    first
}
