// The names in signatures and in the members of classes, interfaces and traits.

ghost use Rattle.std.specs.Prelude.{◌≡◌, map, OnOk};
ghost use Rattle.php_ast.specs.expression.View.{word_view};
ghost use Rattle.php_ast.specs.declaration.View as shown;
ghost use Rattle.php_ast.specs.statement.View.{name_view, optional, sequence};
ghost use Rattle.php_many_names.specs.Met as met;

use crate::expression::{meet_expr, meet_optional};
use crate::names::{Names, meet_dollar, meet_name, meet_word};
use crate::statement::{meet_last, meet_names, meet_variables};
use php_ast::{
    BaseType, ClassConstant, ClassMember, Method, Name, Param, Rule, Signature, Type, Word,
};
use php_base::NoMemory;
use sqlite_items::Items;

/// A name that may be absent.
pub(crate) fn meet_optional_name(names: &mut Names, name: &Option<Name>) -> Result<(), NoMemory>
    ensures { OnOk result (names.new ≡ met.if_some met.met_name names.old (optional name_view name.now)) }
{
    match name {
        None => Ok(()),
        Some(name) => meet_name(names, name),
    }
}

fn meet_optional_word(names: &mut Names, word: &Option<Word>) -> Result<(), NoMemory>
    ensures { OnOk result (names.new ≡ met.if_some met.met_member names.old (optional word_view word.now)) }
{
    match word {
        None => Ok(()),
        Some(word) => meet_word(names, word),
    }
}

// ---- signatures

fn meet_base(names: &mut Names, base: &BaseType) -> Result<(), NoMemory>
    ensures { OnOk result (names.new ≡ met.met_base names.old (shown.base_view base.now)) }
{
    match base {
        BaseType::Name(name) => meet_name(names, name),
        BaseType::Array => Ok(()),
        BaseType::Callable => Ok(()),
    }
}

fn meet_type(names: &mut Names, declared: &Option<Type>) -> Result<(), NoMemory>
    ensures { OnOk result (names.new ≡ met.if_some met.met_type names.old
        (optional shown.type_view declared.now)) }
{
    match declared {
        None => Ok(()),
        Some(declared) => meet_base(names, &declared.base),
    }
}

fn meet_param(names: &mut Names, param: &Param) -> Result<(), NoMemory>
    ensures { OnOk result (names.new ≡ met.met_param names.old (shown.param_view param.now)) }
{
    meet_type(names, &param.declared)?;
    meet_dollar(names, &param.name)?;
    meet_optional(names, &param.default)
}

fn meet_params(names: &mut Names, params: &[Param]) -> Result<(), NoMemory>
    ensures { OnOk result (names.new ≡ met.over met.met_param names.old
        (sequence shown.param_view params.now)) }
{
    for param in params {
        meet_param(names, param)?;
    }
    Ok(())
}

/// The names of a signature.
pub(crate) fn meet_signature(names: &mut Names, signature: &Signature) -> Result<(), NoMemory>
    ensures { OnOk result (names.new ≡ met.met_signature names.old (shown.signature_view signature.now)) }
{
    meet_params(names, signature.params.as_slice())?;
    meet_type(names, &signature.result)
}

// ---- members

fn meet_rule(names: &mut Names, rule: &Rule) -> Result<(), NoMemory>
    ensures { OnOk result (names.new ≡ met.met_rule names.old (shown.rule_view rule.now)) }
{
    match rule {
        Rule::As(_, origin, word, _, alias) => meet_as(names, origin, word, alias),
        Rule::InsteadOf(_, origin, word, others) => {
            meet_instead_of(names, origin, word, others.as_slice())
        }
    }
}

fn meet_as(
    names: &mut Names,
    origin: &Option<Name>,
    word: &Word,
    alias: &Option<Word>,
) -> Result<(), NoMemory>
    ensures { OnOk result (names.new ≡ met.if_some met.met_member (met.met_member
        (met.if_some met.met_name names.old (optional name_view origin.now)) (word_view word.now))
        (optional word_view alias.now)) }
{
    meet_optional_name(names, origin)?;
    meet_word(names, word)?;
    meet_optional_word(names, alias)
}

fn meet_instead_of(
    names: &mut Names,
    origin: &Name,
    word: &Word,
    others: &[Name],
) -> Result<(), NoMemory>
    ensures { OnOk result (names.new ≡ met.over met.met_name (met.met_member (met.met_name names.old
        (name_view origin.now)) (word_view word.now)) (sequence name_view others.now)) }
{
    meet_name(names, origin)?;
    meet_word(names, word)?;
    meet_names(names, others)
}

fn meet_rules(names: &mut Names, rules: &[Rule]) -> Result<(), NoMemory>
    ensures { OnOk result (names.new ≡ met.over met.met_rule names.old (sequence shown.rule_view rules.now)) }
{
    for rule in rules {
        meet_rule(names, rule)?;
    }
    Ok(())
}

fn meet_optional_rules(names: &mut Names, rules: &Option<Items<Rule>>) -> Result<(), NoMemory>
    ensures { OnOk result (names.new ≡ met.if_some (met.over met.met_rule) names.old
        (optional (sequence shown.rule_view) rules.now)) }
{
    match rules {
        None => Ok(()),
        Some(rules) => meet_rules(names, rules.as_slice()),
    }
}

fn meet_use(names: &mut Names, traits: &[Name], rules: &Option<Items<Rule>>) -> Result<(), NoMemory>
    ensures { OnOk result (names.new ≡ met.if_some (met.over met.met_rule) (met.over met.met_name names.old
        (sequence name_view traits.now)) (optional (sequence shown.rule_view) rules.now)) }
{
    meet_names(names, traits)?;
    meet_optional_rules(names, rules)
}

fn meet_class_constant(names: &mut Names, constant: &ClassConstant) -> Result<(), NoMemory>
    ensures { OnOk result (names.new ≡ met.met_class_constant names.old
        (shown.class_constant_view constant.now)) }
{
    meet_word(names, &constant.name)?;
    meet_expr(names, &constant.value)
}

fn meet_class_constants(names: &mut Names, constants: &[ClassConstant]) -> Result<(), NoMemory>
    ensures { OnOk result (names.new ≡ met.over met.met_class_constant names.old
        (sequence shown.class_constant_view constants.now)) }
{
    for constant in constants {
        meet_class_constant(names, constant)?;
    }
    Ok(())
}

fn meet_method(names: &mut Names, method: &Method) -> Result<(), NoMemory>
    ensures { OnOk result (names.new ≡ met.met_method names.old (shown.method_view method.now)) }
{
    meet_word(names, &method.name)?;
    meet_signature(names, &method.signature)?;
    meet_last(names, &method.body)
}

fn meet_member(names: &mut Names, member: &ClassMember) -> Result<(), NoMemory>
    ensures { OnOk result (names.new ≡ met.met_class_member names.old (shown.member_view member.now)) }
{
    match member {
        ClassMember::Use(_, traits, rules) => meet_use(names, traits.as_slice(), rules),
        ClassMember::Const(_, constants) => meet_class_constants(names, constants.as_slice()),
        ClassMember::Method(method) => meet_method(names, method),
        ClassMember::Properties(_, variables) => meet_variables(names, variables.as_slice()),
    }
}

/// The names of members, one after the other.
pub(crate) fn meet_members(names: &mut Names, members: &[ClassMember]) -> Result<(), NoMemory>
    ensures { OnOk result (names.new ≡ met.met_members names.old (sequence shown.member_view members.now)) }
{
    for member in members {
        meet_member(names, member)?;
    }
    Ok(())
}
