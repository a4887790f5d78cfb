// Prints the members of classes, interfaces and traits, and scripts.

ghost use Rattle.std.specs.Prelude.{◌≡◌, ◌∷◌, OnOk};
ghost use Rattle.php_token.specs.declared.kind.Keyword.TheVariants as word;
ghost use Rattle.php_token.specs.declared.kind.Punct.TheVariants as mark;
ghost use Rattle.php_ast.specs.declaration.Spelling as spelling;
ghost use Rattle.php_ast.specs.declaration.Tree as tree;
ghost use Rattle.php_print.specs.Print.{Prints};
ghost use Rattle.php_print_script.specs.declaration.Elements.{spell_rules};
ghost use Rattle.php_ast.specs.statement.Spelling.{commas, spell_name};
ghost use Rattle.php_ast.specs.declaration.View as shown;
ghost use Rattle.php_ast.specs.statement.View.{name_view, names_view, optional, sequence, statements_view, variable_view};
ghost use Rattle.php_ast.specs.Symbol as symbol;
ghost use Rattle.php_ast.specs.expression.View.{word_view};

use crate::declaration::{
    put_class, put_function, put_function_head, put_interface, put_signature, put_trait,
};
use crate::simple::{put_names, put_variables};
use crate::statement::{put_block, put_statement};
use php_ast::{
    ClassConstant, ClassMember, Method, Modifier, ModifierWord, Name, Rule, ScriptItem, Stmt,
    VariableItem, Visibility, Word,
};
use php_base::NoMemory;
use php_print::Printer;
use php_print::fixed::{ASSIGN, DOUBLE_COLON, LEFT_BRACE, RIGHT_BRACE, SEMICOLON};
use php_token::{Keyword, Punct};
use sqlite_items::Items;

// ---- modifiers

fn put_modifier(printer: &mut Printer, modifier: &Modifier) -> Result<(), NoMemory>
    ensures { OnOk result (Prints (spelling.spell_modifier (shown.modifier_view modifier.now))
        printer.old printer.new) }
{
    printer.put_keyword(modifier_keyword(modifier.word))
}

fn put_modifiers(printer: &mut Printer, modifiers: &[Modifier]) -> Result<(), NoMemory>
    ensures { OnOk result (Prints (spelling.joined spelling.spell_modifier
        (sequence shown.modifier_view modifiers.now)) printer.old printer.new) }
{
    for modifier in modifiers {
        put_modifier(printer, modifier)?;
    }
    Ok(())
}

// ---- members

fn put_class_constant(printer: &mut Printer, item: &ClassConstant) -> Result<(), NoMemory>
    ensures { OnOk result (Prints (spelling.spell_class_constant (shown.class_constant_view item.now))
        printer.old printer.new) }
{
    printer.put_word(&item.name)?;
    printer.put_fixed(ASSIGN)?;
    printer.put_expr(&item.value)
}

fn put_class_constants(printer: &mut Printer, items: &[ClassConstant]) -> Result<(), NoMemory>
    ensures { OnOk result (Prints (commas spelling.spell_class_constant
        (sequence shown.class_constant_view items.now)) printer.old printer.new) }
{
    let mut is_later = false;
    for item in items {
        printer.put_punct_if(is_later, Punct::Comma)?;
        put_class_constant(printer, item)?;
        is_later = true;
    }
    Ok(())
}

fn put_method(printer: &mut Printer, method: &Method) -> Result<(), NoMemory>
    ensures { OnOk result (Prints (spelling.spell_member (tree.method (shown.method_view method.now)))
        printer.old printer.new) }
{
    put_modifiers(printer, method.modifiers.as_slice())?;
    put_function_head(printer, method.is_reference)?;
    printer.put_word(&method.name)?;
    put_signature(printer, &method.signature)?;
    put_method_body(printer, &method.body)
}

fn put_method_body(printer: &mut Printer, body: &Option<Items<Stmt>>) -> Result<(), NoMemory>
    ensures { OnOk result (Prints (spelling.spell_method_body (optional statements_view body.now))
        printer.old printer.new) }
{
    match body {
        None => printer.put_fixed(SEMICOLON),
        Some(body) => put_block(printer, body.as_slice()),
    }
}

fn put_use(
    printer: &mut Printer,
    names: &[Name],
    rules: &Option<Items<Rule>>,
) -> Result<(), NoMemory>
    ensures { OnOk result (Prints (λ w. symbol.keyword word.Use ∷ commas spell_name
        (names_view names.now) (spell_rules (optional (sequence shown.rule_view) rules.now) w))
        printer.old printer.new) }
{
    printer.put_keyword(Keyword::Use)?;
    put_names(printer, names, Punct::Comma)?;
    put_use_end(printer, rules)
}

fn put_use_end(printer: &mut Printer, rules: &Option<Items<Rule>>) -> Result<(), NoMemory>
    ensures { OnOk result (Prints (spell_rules (optional (sequence shown.rule_view) rules.now))
        printer.old printer.new) }
{
    match rules {
        None => printer.put_fixed(SEMICOLON),
        Some(rules) => put_rules(printer, rules.as_slice()),
    }
}

fn put_constants_of(
    printer: &mut Printer,
    modifiers: &[Modifier],
    items: &[ClassConstant],
) -> Result<(), NoMemory>
    ensures { OnOk result (Prints (spelling.spell_member (tree.class_constants
        (sequence shown.modifier_view modifiers.now) (sequence shown.class_constant_view items.now)))
        printer.old printer.new) }
{
    put_modifiers(printer, modifiers)?;
    printer.put_keyword(Keyword::Const)?;
    put_class_constants(printer, items)?;
    printer.put_fixed(SEMICOLON)
}

fn put_properties(
    printer: &mut Printer,
    modifiers: &[Modifier],
    items: &[VariableItem],
) -> Result<(), NoMemory>
    ensures { OnOk result (Prints (spelling.spell_member (tree.properties
        (sequence shown.modifier_view modifiers.now) (sequence variable_view items.now)))
        printer.old printer.new) }
{
    put_modifiers(printer, modifiers)?;
    put_variables(printer, items)?;
    printer.put_fixed(SEMICOLON)
}

fn put_class_member(printer: &mut Printer, member: &ClassMember) -> Result<(), NoMemory>
    ensures { OnOk result (Prints (spelling.spell_member (shown.member_view member.now))
        printer.old printer.new) }
{
    match member {
        ClassMember::Use(_, names, rules) => put_use(printer, names.as_slice(), rules),
        ClassMember::Const(modifiers, items) => {
            put_constants_of(printer, modifiers.as_slice(), items.as_slice())
        }
        ClassMember::Method(method) => put_method(printer, method),
        ClassMember::Properties(modifiers, items) => {
            put_properties(printer, modifiers.as_slice(), items.as_slice())
        }
    }
}

/// Puts members in braces.
pub(crate) fn put_members(printer: &mut Printer, members: &[ClassMember]) -> Result<(), NoMemory>
    ensures { OnOk result (Prints (spelling.spell_members (sequence shown.member_view members.now))
        printer.old printer.new) }
{
    printer.put_fixed(LEFT_BRACE)?;
    put_members_alone(printer, members)?;
    printer.put_fixed(RIGHT_BRACE)
}

fn put_members_alone(printer: &mut Printer, members: &[ClassMember]) -> Result<(), NoMemory>
    ensures { OnOk result (Prints (spelling.joined spelling.spell_member
        (sequence shown.member_view members.now)) printer.old printer.new) }
{
    for member in members {
        put_class_member(printer, member)?;
    }
    Ok(())
}

// ---- rules on the methods of used traits

fn put_rules(printer: &mut Printer, rules: &[Rule]) -> Result<(), NoMemory>
    ensures { OnOk result (Prints (λ w. symbol.punct mark.LeftBrace
        ∷ spelling.joined spelling.spell_rule (sequence shown.rule_view rules.now)
        (symbol.punct mark.RightBrace ∷ w)) printer.old printer.new) }
{
    printer.put_fixed(LEFT_BRACE)?;
    put_rules_alone(printer, rules)?;
    printer.put_fixed(RIGHT_BRACE)
}

fn put_rules_alone(printer: &mut Printer, rules: &[Rule]) -> Result<(), NoMemory>
    ensures { OnOk result (Prints (spelling.joined spelling.spell_rule
        (sequence shown.rule_view rules.now)) printer.old printer.new) }
{
    for rule in rules {
        put_rule(printer, rule)?;
    }
    Ok(())
}

fn put_rule(printer: &mut Printer, rule: &Rule) -> Result<(), NoMemory>
    ensures { OnOk result (Prints (spelling.spell_rule (shown.rule_view rule.now)) printer.old printer.new) }
{
    match rule {
        Rule::As(_, origin, name, seen, alias) => {
            put_origin(printer, origin)?;
            printer.put_word(name)?;
            printer.put_keyword(Keyword::As)?;
            put_renamed(printer, seen, alias)
        }
        Rule::InsteadOf(_, origin, name, others) => {
            put_preferred(printer, origin, name, others.as_slice())
        }
    }
}

fn put_origin(printer: &mut Printer, origin: &Option<Name>) -> Result<(), NoMemory>
    ensures { OnOk result (Prints (spelling.spell_origin (optional name_view origin.now))
        printer.old printer.new) }
{
    match origin {
        None => Ok(()),
        Some(name) => {
            printer.put_name(&name.text)?;
            printer.put_fixed(DOUBLE_COLON)
        }
    }
}

fn put_renamed(
    printer: &mut Printer,
    seen: &Option<Visibility>,
    alias: &Option<Word>,
) -> Result<(), NoMemory>
    ensures { OnOk result (Prints (λ w. spelling.spell_visibility seen.now (spelling.spell_alias
        (optional word_view alias.now) (symbol.punct mark.Semicolon ∷ w))) printer.old printer.new) }
{
    put_visibility(printer, seen)?;
    put_alias(printer, alias)?;
    printer.put_fixed(SEMICOLON)
}

fn put_visibility(printer: &mut Printer, seen: &Option<Visibility>) -> Result<(), NoMemory>
    ensures { OnOk result (Prints (spelling.spell_visibility seen.now) printer.old printer.new) }
{
    match seen {
        None => Ok(()),
        Some(Visibility::Public) => printer.put_keyword(Keyword::Public),
        Some(Visibility::Protected) => printer.put_keyword(Keyword::Protected),
        Some(Visibility::Private) => printer.put_keyword(Keyword::Private),
    }
}

fn put_alias(printer: &mut Printer, alias: &Option<Word>) -> Result<(), NoMemory>
    ensures { OnOk result (Prints (spelling.spell_alias (optional word_view alias.now))
        printer.old printer.new) }
{
    match alias {
        None => Ok(()),
        Some(word) => printer.put_word(word),
    }
}

fn put_preferred(
    printer: &mut Printer,
    origin: &Name,
    name: &Word,
    others: &[Name],
) -> Result<(), NoMemory>
    ensures { OnOk result (Prints (λ w. symbol.name origin.now.text ∷ symbol.punct mark.DoubleColon
        ∷ spelling.spell_member_name (word_view name.now) (symbol.keyword word.InsteadOf
        ∷ commas spell_name (names_view others.now) (symbol.punct mark.Semicolon ∷ w)))
        printer.old printer.new) }
{
    printer.put_name(&origin.text)?;
    printer.put_fixed(DOUBLE_COLON)?;
    printer.put_word(name)?;
    printer.put_keyword(Keyword::InsteadOf)?;
    put_names(printer, others, Punct::Comma)?;
    printer.put_fixed(SEMICOLON)
}

// ---- scripts

fn put_script_item(printer: &mut Printer, item: &ScriptItem) -> Result<(), NoMemory>
    ensures { OnOk result (Prints (spelling.spell_item (shown.item_view item.now)) printer.old printer.new) }
{
    match item {
        ScriptItem::Statement(s) => put_statement(printer, s),
        ScriptItem::Function(function) => put_function(printer, function),
        ScriptItem::Class(class) => put_class(printer, class),
        ScriptItem::Interface(interface) => put_interface(printer, interface),
        ScriptItem::Trait(of) => put_trait(printer, of),
    }
}

/// Puts what stands at the outermost level of a script.
pub(crate) fn put_script_items(printer: &mut Printer, items: &[ScriptItem]) -> Result<(), NoMemory>
    ensures { OnOk result (Prints (spelling.joined spelling.spell_item
        (sequence shown.item_view items.now)) printer.old printer.new) }
{
    for item in items {
        put_script_item(printer, item)?;
    }
    Ok(())
}

fn modifier_keyword(word: ModifierWord) -> Keyword
    ensures { result ≡ spelling.modifier_word word }
{
    match word {
        ModifierWord::Public => Keyword::Public,
        ModifierWord::Protected => Keyword::Protected,
        ModifierWord::Private => Keyword::Private,
        ModifierWord::Static => Keyword::Static,
        ModifierWord::Abstract => Keyword::Abstract,
        ModifierWord::Final => Keyword::Final,
        ModifierWord::Var => Keyword::Var,
    }
}
