// Prints statements without statements in them, and the heads of the others.

ghost use Rattle.std.specs.Prelude.{◌∷◌, map, OnOk};
ghost use Rattle.php_token.specs.declared.kind.Keyword.TheVariants as word;
ghost use Rattle.php_token.specs.declared.kind.Punct.TheVariants as mark;
ghost use Rattle.php_print.specs.Print.{Prints};
ghost use Rattle.php_print_script.specs.statement.Elements.{spell_catch_head, spell_for_head, spell_foreach_head};
ghost use Rattle.php_ast.specs.expression.Spelling.{spell, spell_items};
ghost use Rattle.php_ast.specs.statement.Spelling as spelling;
ghost use Rattle.php_ast.specs.statement.View as shown;
ghost use Rattle.php_ast.specs.Symbol as symbol;
ghost use Rattle.php_ast.specs.expression.View.{view};

use php_ast::{
    CaseEnd, ConstantItem, Expr, ForHead, ForeachHead, Name, SwitchForm, Target, VariableItem,
};
use php_base::NoMemory;
use php_print::fixed::{
    AMPERSAND, ASSIGN, COLON, DOUBLE_ARROW, LEFT, LEFT_BRACE, RIGHT, RIGHT_BRACE, SEMICOLON,
};
use php_print::{Fixed, Printer};
use php_token::{Keyword, Punct};

/// Puts names, with a sign between each two.
pub(crate) fn put_names(
    printer: &mut Printer,
    names: &[Name],
    between: Punct,
) -> Result<(), NoMemory>
    ensures { OnOk result (Prints (spelling.separated (symbol.punct between) spelling.spell_name
        (shown.names_view names.now)) printer.old printer.new) }
{
    let mut is_later = false;
    for name in names {
        printer.put_punct_if(is_later, between)?;
        printer.put_name(&name.text)?;
        is_later = true;
    }
    Ok(())
}

// Variables, with commas between them.
fn put_dollars(printer: &mut Printer, names: &[Name]) -> Result<(), NoMemory>
    ensures { OnOk result (Prints (spelling.commas spelling.spell_dollar (shown.names_view names.now))
        printer.old printer.new) }
{
    let mut is_later = false;
    for name in names {
        printer.put_punct_if(is_later, Punct::Comma)?;
        printer.put_variable(&name.text)?;
        is_later = true;
    }
    Ok(())
}

/// Puts variables with their values, with commas between them.
pub(crate) fn put_variables(printer: &mut Printer, items: &[VariableItem]) -> Result<(), NoMemory>
    ensures { OnOk result (Prints (spelling.commas spelling.spell_variable
        (shown.sequence shown.variable_view items.now)) printer.old printer.new) }
{
    let mut is_later = false;
    for item in items {
        printer.put_punct_if(is_later, Punct::Comma)?;
        put_variable_item(printer, item)?;
        is_later = true;
    }
    Ok(())
}

fn put_variable_item(printer: &mut Printer, item: &VariableItem) -> Result<(), NoMemory>
    ensures { OnOk result (Prints (spelling.spell_variable (shown.variable_view item.now))
        printer.old printer.new) }
{
    printer.put_variable(&item.name.text)?;
    put_initial(printer, &item.value)
}

/// Puts `=` and a value, where there is one.
pub(crate) fn put_initial(printer: &mut Printer, value: &Option<Expr>) -> Result<(), NoMemory>
    ensures { OnOk result (Prints (spelling.spell_value (shown.optional view value.now))
        printer.old printer.new) }
{
    match value {
        None => Ok(()),
        Some(e) => {
            printer.put_fixed(ASSIGN)?;
            printer.put_expr(e)
        }
    }
}

fn put_constant_items(printer: &mut Printer, items: &[ConstantItem]) -> Result<(), NoMemory>
    ensures { OnOk result (Prints (spelling.commas spelling.spell_constant
        (shown.sequence shown.constant_view items.now)) printer.old printer.new) }
{
    let mut is_later = false;
    for item in items {
        printer.put_punct_if(is_later, Punct::Comma)?;
        put_constant_item(printer, item)?;
        is_later = true;
    }
    Ok(())
}

fn put_constant_item(printer: &mut Printer, item: &ConstantItem) -> Result<(), NoMemory>
    ensures { OnOk result (Prints (spelling.spell_constant (shown.constant_view item.now))
        printer.old printer.new) }
{
    printer.put_name(&item.name.text)?;
    printer.put_fixed(ASSIGN)?;
    printer.put_expr(&item.value)
}

// ---- statements

pub(crate) fn put_expression(printer: &mut Printer, e: &Expr) -> Result<(), NoMemory>
    ensures { OnOk result (Prints (λ w. spell (view e.now) (symbol.punct mark.Semicolon ∷ w))
        printer.old printer.new) }
{
    printer.put_expr(e)?;
    printer.put_fixed(SEMICOLON)
}

pub(crate) fn put_echo(printer: &mut Printer, values: &[Expr]) -> Result<(), NoMemory>
    ensures { OnOk result (Prints (λ w. symbol.keyword word.Echo ∷ spell_items
        (shown.values_view values.now) (symbol.punct mark.Semicolon ∷ w)) printer.old printer.new) }
{
    printer.put_keyword(Keyword::Echo)?;
    printer.put_values(values)?;
    printer.put_fixed(SEMICOLON)
}

pub(crate) fn put_globals(printer: &mut Printer, names: &[Name]) -> Result<(), NoMemory>
    ensures { OnOk result (Prints (λ w. symbol.keyword word.Global
        ∷ spelling.commas spelling.spell_dollar (shown.names_view names.now)
        (symbol.punct mark.Semicolon ∷ w)) printer.old printer.new) }
{
    printer.put_keyword(Keyword::Global)?;
    put_dollars(printer, names)?;
    printer.put_fixed(SEMICOLON)
}

pub(crate) fn put_statics(printer: &mut Printer, items: &[VariableItem]) -> Result<(), NoMemory>
    ensures { OnOk result (Prints (λ w. symbol.keyword word.Static
        ∷ spelling.commas spelling.spell_variable (shown.sequence shown.variable_view items.now)
        (symbol.punct mark.Semicolon ∷ w)) printer.old printer.new) }
{
    printer.put_keyword(Keyword::Static)?;
    put_variables(printer, items)?;
    printer.put_fixed(SEMICOLON)
}

pub(crate) fn put_unset(printer: &mut Printer, places: &[Expr]) -> Result<(), NoMemory>
    ensures { OnOk result (Prints (λ w. symbol.keyword word.Unset ∷ symbol.punct mark.LeftParen
        ∷ spell_items (shown.values_view places.now) (symbol.punct mark.RightParen
        ∷ symbol.punct mark.Semicolon ∷ w)) printer.old printer.new) }
{
    printer.put_all(&[Fixed::Keyword(Keyword::Unset), LEFT])?;
    printer.put_values(places)?;
    printer.put_all(&[RIGHT, SEMICOLON])
}

pub(crate) fn put_constants(printer: &mut Printer, items: &[ConstantItem]) -> Result<(), NoMemory>
    ensures { OnOk result (Prints (λ w. symbol.keyword word.Const
        ∷ spelling.commas spelling.spell_constant (shown.sequence shown.constant_view items.now)
        (symbol.punct mark.Semicolon ∷ w)) printer.old printer.new) }
{
    printer.put_keyword(Keyword::Const)?;
    put_constant_items(printer, items)?;
    printer.put_fixed(SEMICOLON)
}

pub(crate) fn put_jump(
    printer: &mut Printer,
    word: Keyword,
    value: &Option<Expr>,
) -> Result<(), NoMemory>
    ensures { OnOk result (Prints (λ w. symbol.keyword word ∷ spelling.spell_optional
        (shown.optional view value.now) (symbol.punct mark.Semicolon ∷ w)) printer.old printer.new) }
{
    printer.put_keyword(word)?;
    put_value(printer, value)?;
    printer.put_fixed(SEMICOLON)
}

fn put_value(printer: &mut Printer, value: &Option<Expr>) -> Result<(), NoMemory>
    ensures { OnOk result (Prints (spelling.spell_optional (shown.optional view value.now))
        printer.old printer.new) }
{
    match value {
        None => Ok(()),
        Some(e) => printer.put_expr(e),
    }
}

pub(crate) fn put_throw(printer: &mut Printer, e: &Expr) -> Result<(), NoMemory>
    ensures { OnOk result (Prints (λ w. symbol.keyword word.Throw ∷ spell (view e.now)
        (symbol.punct mark.Semicolon ∷ w)) printer.old printer.new) }
{
    printer.put_keyword(Keyword::Throw)?;
    put_expression(printer, e)
}

pub(crate) fn put_declare(printer: &mut Printer, name: &Name, value: &i64) -> Result<(), NoMemory>
    ensures { OnOk result (Prints (λ w. symbol.keyword word.Declare ∷ symbol.punct mark.LeftParen
        ∷ symbol.name name.now.text ∷ symbol.punct mark.Assign ∷ symbol.int value.now
        ∷ symbol.punct mark.RightParen ∷ symbol.punct mark.Semicolon ∷ w) printer.old printer.new) }
{
    printer.put_all(&[Fixed::Keyword(Keyword::Declare), LEFT])?;
    printer.put_name(&name.text)?;
    printer.put_fixed(ASSIGN)?;
    printer.put_int(value)?;
    printer.put_all(&[RIGHT, SEMICOLON])
}

// ---- heads

pub(crate) fn put_for_head(printer: &mut Printer, head: &ForHead) -> Result<(), NoMemory>
    ensures { OnOk result (Prints (spell_for_head head.now) printer.old printer.new) }
{
    printer.put_all(&[Fixed::Keyword(Keyword::For), LEFT])?;
    printer.put_values(head.starts.as_slice())?;
    printer.put_fixed(SEMICOLON)?;
    printer.put_values(head.tests.as_slice())?;
    printer.put_fixed(SEMICOLON)?;
    printer.put_values(head.steps.as_slice())?;
    printer.put_fixed(RIGHT)
}

pub(crate) fn put_foreach_head(printer: &mut Printer, head: &ForeachHead) -> Result<(), NoMemory>
    ensures { OnOk result (Prints (spell_foreach_head head.now) printer.old printer.new) }
{
    printer.put_all(&[Fixed::Keyword(Keyword::Foreach), LEFT])?;
    printer.put_expr(&head.walked)?;
    printer.put_keyword(Keyword::As)?;
    put_key(printer, &head.key)?;
    put_target(printer, &head.value)?;
    printer.put_fixed(RIGHT)
}

fn put_key(printer: &mut Printer, key: &Option<Target>) -> Result<(), NoMemory>
    ensures { OnOk result (Prints (spelling.spell_key (shown.optional shown.target_view key.now))
        printer.old printer.new) }
{
    match key {
        None => Ok(()),
        Some(target) => {
            put_target(printer, target)?;
            printer.put_fixed(DOUBLE_ARROW)
        }
    }
}

fn put_target(printer: &mut Printer, target: &Target) -> Result<(), NoMemory>
    ensures { OnOk result (Prints (spelling.spell_target (shown.target_view target.now))
        printer.old printer.new) }
{
    printer.put_punct_if(target.is_reference, Punct::Ampersand)?;
    printer.put_expr(&target.place)
}

pub(crate) fn put_switch_opening(
    printer: &mut Printer,
    e: &Expr,
    form: SwitchForm,
) -> Result<(), NoMemory>
    ensures { OnOk result (Prints (λ w. spelling.spell_head word.Switch (view e.now)
        (spelling.cases_opening form ∷ w)) printer.old printer.new) }
{
    printer.put_head(Keyword::Switch, e)?;
    match form {
        SwitchForm::Braces => printer.put_fixed(LEFT_BRACE),
        SwitchForm::Colon => printer.put_fixed(COLON),
    }
}

pub(crate) fn put_switch_closing(printer: &mut Printer, form: SwitchForm) -> Result<(), NoMemory>
    ensures { OnOk result (Prints (spelling.cases_closing form) printer.old printer.new) }
{
    match form {
        SwitchForm::Braces => printer.put_fixed(RIGHT_BRACE),
        SwitchForm::Colon => printer.put_all(&[Fixed::Keyword(Keyword::EndSwitch), SEMICOLON]),
    }
}

pub(crate) fn put_label(printer: &mut Printer, value: &Option<Expr>) -> Result<(), NoMemory>
    ensures { OnOk result (Prints (spelling.spell_label (shown.optional view value.now))
        printer.old printer.new) }
{
    match value {
        None => printer.put_keyword(Keyword::Default),
        Some(e) => {
            printer.put_keyword(Keyword::Case)?;
            printer.put_expr(e)
        }
    }
}

pub(crate) fn put_case_end(printer: &mut Printer, end: CaseEnd) -> Result<(), NoMemory>
    ensures { OnOk result (Prints (λ w. spelling.case_end_symbol end ∷ w) printer.old printer.new) }
{
    match end {
        CaseEnd::Colon => printer.put_fixed(COLON),
        CaseEnd::Semicolon => printer.put_fixed(SEMICOLON),
    }
}

/// Puts the classes and the variable of a `catch`.
pub(crate) fn put_catch_head(
    printer: &mut Printer,
    classes: &[Name],
    variable: &Name,
) -> Result<(), NoMemory>
    ensures { OnOk result (Prints (spell_catch_head classes.now variable.now) printer.old printer.new) }
{
    printer.put_all(&[Fixed::Keyword(Keyword::Catch), LEFT])?;
    put_names(printer, classes, Punct::Bar)?;
    printer.put_variable(&variable.text)?;
    printer.put_fixed(RIGHT)
}
