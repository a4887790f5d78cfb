// The words before classes, and the names of classes, interfaces and traits.

ghost use Rattle.std.specs.Prelude.{◌≡◌, drop, map};
ghost use Rattle.php_ast.specs.declaration.View.{class_word_view, item_view};
ghost use Rattle.php_ast.specs.statement.View.{name_view, sequence};
ghost use Rattle.php_legality.specs.Lists.{elements};
ghost use Rattle.php_legality.specs.Taken as taken;
ghost use Rattle.php_places.specs.Over.{over};
ghost use Rattle.php_forms.specs.ClassFaults as spec;

use php_ast::{ClassModifier, Name, ScriptItem, Spot};
use php_legality::{Fault, Kind};
use php_places::fault_if;
use php_value::Text;

// The names of types that no class may have.
fn is_type_name(name: &[u8]) -> bool
    ensures { result ≡ taken.is_one_of spec.type_names name.now }
{
    if b"int".eq_ignore_ascii_case(name) {
        true
    } else if b"string".eq_ignore_ascii_case(name) {
        true
    } else if b"bool".eq_ignore_ascii_case(name) {
        true
    } else {
        b"void".eq_ignore_ascii_case(name)
    }
}

// The names of constants that no class may have.
fn is_constant_name(name: &[u8]) -> bool
    ensures { result ≡ taken.is_one_of spec.constant_names name.now }
{
    if b"true".eq_ignore_ascii_case(name) {
        true
    } else if b"false".eq_ignore_ascii_case(name) {
        true
    } else {
        b"null".eq_ignore_ascii_case(name)
    }
}

// What a class is called from inside.
fn is_own_name(name: &[u8]) -> bool
    ensures { result ≡ taken.is_one_of spec.own_names name.now }
{
    if b"self".eq_ignore_ascii_case(name) {
        true
    } else if b"parent".eq_ignore_ascii_case(name) {
        true
    } else {
        b"static".eq_ignore_ascii_case(name)
    }
}

/// Whether no class may have this name.
fn is_no_class_name(text: &Text) -> bool
    ensures { result ≡ taken.is_one_of taken.no_class_names text.now }
{
    if is_own_name(text.bytes()) {
        true
    } else if is_type_name(text.bytes()) {
        true
    } else {
        is_constant_name(text.bytes())
    }
}

#[tactic(auto, unfolding(crate::specs::ClassFaults::met_class_name))]
fn check_class_name(met: Option<Fault>, name: &Name) -> Option<Fault>
    ensures { result ≡ spec.met_class_name (name_view name.now) met }
{
    fault_if(met, is_no_class_name(&name.text), Kind::BadUse, name.spot)
}

fn check_words(met: Option<Fault>, words: &[(Spot, ClassModifier)]) -> Option<Fault>
    ensures { result ≡ over spec.met_class_word (map class_word_view words.now) met }
{
    let mut first = met;
    for word in words {
        first = fault_if(first, true, Kind::BadUse, word.0);
    }
    first
}

// All but the first word.
fn check_further_words(met: Option<Fault>, words: &[(Spot, ClassModifier)]) -> Option<Fault>
    ensures { result ≡ over spec.met_class_word (drop 1 (elements (sequence class_word_view words.now))) met }
{
    if words.is_empty() {
        met
    } else {
        check_words(met, &words[1..])
    }
}

fn check_item(met: Option<Fault>, item: &ScriptItem) -> Option<Fault>
    ensures { result ≡ spec.met_item_class (item_view item.now) met }
{
    match item {
        ScriptItem::Statement(_) => met,
        ScriptItem::Function(_) => met,
        ScriptItem::Class(class) => {
            let met = check_further_words(met, class.modifiers.as_slice());
            check_class_name(met, &class.name)
        }
        ScriptItem::Interface(interface) => check_class_name(met, &interface.name),
        ScriptItem::Trait(item) => check_class_name(met, &item.name),
    }
}

/// The first fault, behind those met, of the words before classes and of their names.
pub(crate) fn check_classes(met: Option<Fault>, items: &[ScriptItem]) -> Option<Fault>
    ensures { result ≡ over spec.met_item_class (map item_view items.now) met }
{
    let mut first = met;
    for item in items {
        first = check_item(first, item);
    }
    first
}
