// Prints signatures, functions, classes, interfaces and traits.

ghost use Rattle.std.specs.Prelude.{◌∷◌, OnOk};
ghost use Rattle.php_token.specs.declared.kind.Keyword.TheVariants as word;
ghost use Rattle.php_token.specs.declared.kind.Punct.TheVariants as mark;
ghost use Rattle.php_ast.specs.declaration.Spelling as spelling;
ghost use Rattle.php_ast.specs.declaration.Tree as tree;
ghost use Rattle.php_print.specs.Print.{Prints};
ghost use Rattle.php_ast.specs.statement.Spelling.{commas, symbol_if};
ghost use Rattle.php_ast.specs.declaration.View as shown;
ghost use Rattle.php_ast.specs.statement.View.{name_view, names_view, optional, sequence};
ghost use Rattle.php_ast.specs.Symbol as symbol;

use crate::member::put_members;
use crate::simple::{put_initial, put_names};
use crate::statement::put_block;
use php_ast::{
    BaseType, ClassDecl, ClassModifier, FunctionDecl, InterfaceDecl, Name, Param, Signature, Spot,
    TraitDecl, Type,
};
use php_base::NoMemory;
use php_print::Printer;
use php_print::fixed::{COLON, LEFT, RIGHT};
use php_token::{Keyword, Punct};

// ---- signatures

fn put_base(printer: &mut Printer, base: &BaseType) -> Result<(), NoMemory>
    ensures { OnOk result (Prints (spelling.spell_base (shown.base_view base.now)) printer.old printer.new) }
{
    match base {
        BaseType::Name(name) => printer.put_name(&name.text),
        BaseType::Array => printer.put_keyword(Keyword::Array),
        BaseType::Callable => printer.put_keyword(Keyword::Callable),
    }
}

fn put_type(printer: &mut Printer, t: &Type) -> Result<(), NoMemory>
    ensures { OnOk result (Prints (spelling.spell_type (shown.type_view t.now)) printer.old printer.new) }
{
    printer.put_punct_if(t.is_nullable, Punct::Question)?;
    put_base(printer, &t.base)
}

fn put_declared(printer: &mut Printer, declared: &Option<Type>) -> Result<(), NoMemory>
    ensures { OnOk result (Prints (spelling.spell_declared (optional shown.type_view declared.now))
        printer.old printer.new) }
{
    match declared {
        None => Ok(()),
        Some(t) => put_type(printer, t),
    }
}

fn put_result(printer: &mut Printer, given: &Option<Type>) -> Result<(), NoMemory>
    ensures { OnOk result (Prints (spelling.spell_result (optional shown.type_view given.now))
        printer.old printer.new) }
{
    match given {
        None => Ok(()),
        Some(t) => {
            printer.put_fixed(COLON)?;
            put_type(printer, t)
        }
    }
}

fn put_param(printer: &mut Printer, param: &Param) -> Result<(), NoMemory>
    ensures { OnOk result (Prints (spelling.spell_param (shown.param_view param.now))
        printer.old printer.new) }
{
    put_declared(printer, &param.declared)?;
    printer.put_punct_if(param.is_reference, Punct::Ampersand)?;
    printer.put_punct_if(param.is_variadic, Punct::Ellipsis)?;
    printer.put_variable(&param.name.text)?;
    put_initial(printer, &param.default)
}

fn put_params(printer: &mut Printer, params: &[Param]) -> Result<(), NoMemory>
    ensures { OnOk result (Prints (commas spelling.spell_param (sequence shown.param_view params.now))
        printer.old printer.new) }
{
    let mut is_later = false;
    for param in params {
        printer.put_punct_if(is_later, Punct::Comma)?;
        put_param(printer, param)?;
        is_later = true;
    }
    Ok(())
}

/// Puts parameters and the type of the result.
pub(crate) fn put_signature(printer: &mut Printer, signature: &Signature) -> Result<(), NoMemory>
    ensures { OnOk result (Prints (spelling.spell_signature (shown.signature_view signature.now))
        printer.old printer.new) }
{
    printer.put_fixed(LEFT)?;
    put_params(printer, signature.params.as_slice())?;
    printer.put_fixed(RIGHT)?;
    put_result(printer, &signature.result)
}

/// Puts `function`, and `&` where there is one.
pub(crate) fn put_function_head(printer: &mut Printer, is_reference: bool) -> Result<(), NoMemory>
    ensures { OnOk result (Prints (λ w. symbol.keyword word.Function ∷ symbol_if is_reference
        (symbol.punct mark.Ampersand) w) printer.old printer.new) }
{
    printer.put_keyword(Keyword::Function)?;
    printer.put_punct_if(is_reference, Punct::Ampersand)
}

/// Puts a function.
pub(crate) fn put_function(printer: &mut Printer, function: &FunctionDecl) -> Result<(), NoMemory>
    ensures { OnOk result (Prints (spelling.spell_function (shown.function_view function.now))
        printer.old printer.new) }
{
    put_function_head(printer, function.is_reference)?;
    printer.put_name(&function.name.text)?;
    put_signature(printer, &function.signature)?;
    put_block(printer, function.body.as_slice())
}

// ---- classes, interfaces, traits

fn put_class_word(printer: &mut Printer, modifier: &(Spot, ClassModifier)) -> Result<(), NoMemory>
    ensures { OnOk result (Prints (spelling.spell_class_word (shown.class_word_view modifier.now))
        printer.old printer.new) }
{
    match modifier.1 {
        ClassModifier::Abstract => printer.put_keyword(Keyword::Abstract),
        ClassModifier::Final => printer.put_keyword(Keyword::Final),
    }
}

fn put_class_words(
    printer: &mut Printer,
    modifiers: &[(Spot, ClassModifier)],
) -> Result<(), NoMemory>
    ensures { OnOk result (Prints (spelling.joined spelling.spell_class_word
        (sequence shown.class_word_view modifiers.now)) printer.old printer.new) }
{
    for modifier in modifiers {
        put_class_word(printer, modifier)?;
    }
    Ok(())
}

fn put_parent(printer: &mut Printer, parent: &Option<Name>) -> Result<(), NoMemory>
    ensures { OnOk result (Prints (spelling.spell_parent (optional name_view parent.now))
        printer.old printer.new) }
{
    match parent {
        None => Ok(()),
        Some(name) => {
            printer.put_keyword(Keyword::Extends)?;
            printer.put_name(&name.text)
        }
    }
}

// Names behind a word, which is absent where there are none.
fn put_names_behind(printer: &mut Printer, before: Keyword, names: &[Name]) -> Result<(), NoMemory>
    ensures { OnOk result (Prints (spelling.spell_names before (names_view names.now))
        printer.old printer.new) }
{
    if names.is_empty() {
        return Ok(());
    }
    printer.put_keyword(before)?;
    put_names(printer, names, Punct::Comma)
}

/// Puts a class.
pub(crate) fn put_class(printer: &mut Printer, class: &ClassDecl) -> Result<(), NoMemory>
    ensures { OnOk result (Prints (spelling.spell_item (tree.of_class (shown.class_view class.now)))
        printer.old printer.new) }
{
    put_class_words(printer, class.modifiers.as_slice())?;
    printer.put_keyword(Keyword::Class)?;
    printer.put_name(&class.name.text)?;
    put_parent(printer, &class.parent)?;
    put_names_behind(printer, Keyword::Implements, class.interfaces.as_slice())?;
    put_members(printer, class.members.as_slice())
}

/// Puts an interface.
pub(crate) fn put_interface(
    printer: &mut Printer,
    interface: &InterfaceDecl,
) -> Result<(), NoMemory>
    ensures { OnOk result (Prints (spelling.spell_item (tree.of_interface
        (shown.interface_view interface.now))) printer.old printer.new) }
{
    printer.put_keyword(Keyword::Interface)?;
    printer.put_name(&interface.name.text)?;
    put_names_behind(printer, Keyword::Extends, interface.parents.as_slice())?;
    put_members(printer, interface.members.as_slice())
}

/// Puts a trait.
pub(crate) fn put_trait(printer: &mut Printer, of: &TraitDecl) -> Result<(), NoMemory>
    ensures { OnOk result (Prints (spelling.spell_item (tree.of_trait (shown.trait_view of.now)))
        printer.old printer.new) }
{
    printer.put_keyword(Keyword::Trait)?;
    printer.put_name(&of.name.text)?;
    put_members(printer, of.members.as_slice())
}
