// Which actions forms of the script stand for.
ghost use Rattle.std.specs.Prelude.{◌≡◌, Some, IfOk};
ghost use Rattle.std.specs.Option.{option_map};
ghost use Rattle.php_ast.specs.expression.Tree as tree;
ghost use Rattle.php_ast.specs.expression.View.{spot_view, view};
ghost use Rattle.php_value.specs.declared.scalar.Scalar.TheVariants as scalar;
ghost use Rattle.php_meaning.specs.Constants.{constant_of, int_constants, library_constants, value_in};
ghost use Rattle.php_meaning.specs.Forms as form;

use crate::slots::slot_of;
use indexmap::IndexSet;
use php_actions::{
    Action, BaseForm, JumpAction, NameAction, OperatorAction, OutputAction, PlaceAction, PlaceForm,
    Relation, StackAction,
};
use php_ast::{Assign, Binary, Expr, Magic, Name, Prefix, Spot};
use php_base::NoMemory;
use php_memdef::Name as Slot;
use php_value::{Op, Scalar, Text};
use sqlite_items::Items;
use std::alloc::Global;

// ---- places

fn base_of(names: &IndexSet<Text>, name: &Text) -> Result<BaseForm, NoMemory>
    ensures { IfOk result (λ base. base ≡ form.base_of names.now.keys name.now) }
{
    if name.bytes() == b"this".as_slice() {
        return Ok(BaseForm::This);
    }
    Ok(BaseForm::Variable(Slot(slot_of(names, name)?)))
}

pub fn variable_form(
    alloc: Global,
    names: &IndexSet<Text>,
    name: &Text,
) -> Result<PlaceForm, NoMemory>
    ensures { IfOk result (λ place. place ≡ form.variable_form names.now.keys name.now) }
{
    let base = base_of(names, name)?;
    Ok(PlaceForm {
        base,
        steps: Items::new(alloc),
    })
}

// The variable that an expression is.
fn variable_of(e: &Expr) -> Option<&Name>
    ensures { option_map (λ name. name.now.text) result ≡ form.variable_name (view e.now) }
{
    match e {
        Expr::Variable(name) => Some(name),
        Expr::Chain(first, suffixes) => {
            if suffixes.is_empty() {
                variable_of(first.get())
            } else {
                None
            }
        }
        Expr::Run(first, links) => {
            if links.is_empty() {
                variable_of(first.get())
            } else {
                None
            }
        }
        Expr::Int(_, _) => None,
        Expr::Str(_, _) => None,
        Expr::Name(_) => None,
        Expr::Magic(_, _) => None,
        Expr::Template(_, _) => None,
        Expr::Group(_, _) => None,
        Expr::Empty(_, _) => None,
        Expr::ExitWith(_, _) => None,
        Expr::Prefix(_, _, _) => None,
        Expr::Binary(_, _, _) => None,
        Expr::Assign(_, _, _) => None,
        Expr::AssignReference(_, _) => None,
        Expr::StaticMember(_, _) => None,
        Expr::Array(_, _, _) => None,
        Expr::IsSet(_, _) => None,
        Expr::Exit(_) => None,
        Expr::ExitEmpty(_) => None,
        Expr::New(_, _) => None,
        Expr::NewWith(_, _, _) => None,
        Expr::Count(_, _) => None,
        Expr::InstanceOf(_, _) => None,
        Expr::InstanceOfStatic(_, _) => None,
        Expr::YieldNothing(_) => None,
        Expr::Yield(_, _) => None,
        Expr::YieldPair(_, _, _) => None,
    }
}

// The place to which an assignment writes, where it is told.
pub fn assigned_form(
    alloc: Global,
    names: &IndexSet<Text>,
    op: Assign,
    target: &Expr,
) -> Result<Option<PlaceForm>, NoMemory>
    ensures { IfOk result (λ place. place ≡ form.assigned_form names.now.keys (tree.by_value op)
        (view target.now)) }
{
    if !is_plain(op) {
        return Ok(None);
    }
    match variable_of(target) {
        None => Ok(None),
        Some(name) => Ok(Some(variable_form(alloc, names, &name.text)?)),
    }
}

fn is_plain(op: Assign) -> bool
    ensures { result ≡ form.is_plain (tree.by_value op) }
{
    matches!(op, Assign::Plain)
}

// ---- leaves

pub fn push_int(value: &i64) -> Action
    ensures { result ≡ form.push (scalar.Int value.now) }
{
    Action::Stack(StackAction::Push(Scalar::Int(*value)))
}

pub fn push_text(text: &Text) -> Result<Action, NoMemory>
    ensures { IfOk result (λ action. action ≡ form.push (scalar.Str text.now)) }
{
    Ok(Action::Stack(StackAction::Push(Scalar::Str(text.share()?))))
}

// The constant of a name that no script defines.
#[tactic(auto, unfolding(php_meaning::specs::Constants::constant_of))]
fn constant_of(alloc: Global, name: &[u8]) -> Result<Option<Scalar>, NoMemory>
    ensures { IfOk result (λ value. value ≡ constant_of name.now) }
{
    if name.eq_ignore_ascii_case(b"true") {
        Ok(Some(Scalar::Bool(true)))
    } else if name.eq_ignore_ascii_case(b"false") {
        Ok(Some(Scalar::Bool(false)))
    } else if name.eq_ignore_ascii_case(b"null") {
        Ok(Some(Scalar::Null))
    } else {
        library_constant(alloc, name)
    }
}

// The constant of the library.
fn library_constant(alloc: Global, name: &[u8]) -> Result<Option<Scalar>, NoMemory>
    ensures { IfOk result (λ value. value ≡ value_in library_constants name.now) }
{
    if name == b"PHP_EOL".as_slice() {
        return Ok(Some(Scalar::Str(Text::from_bytes(alloc, b"\n")?)));
    }
    Ok(int_constant(name))
}

#[tactic(auto, unfolding(php_meaning::specs::Constants::int_constants))]
fn int_constant(name: &[u8]) -> Option<Scalar>
    ensures { result ≡ value_in int_constants name.now }
{
    if name == b"PHP_INT_MAX".as_slice() {
        Some(Scalar::Int(i64::MAX))
    } else if name == b"PHP_INT_MIN".as_slice() {
        Some(Scalar::Int(i64::MIN))
    } else if name == b"PHP_INT_SIZE".as_slice() {
        Some(Scalar::Int(8))
    } else if name == b"SORT_REGULAR".as_slice() {
        Some(Scalar::Int(0))
    } else if name == b"SORT_STRING".as_slice() {
        Some(Scalar::Int(2))
    } else if name == b"STR_PAD_LEFT".as_slice() {
        Some(Scalar::Int(0))
    } else if name == b"STR_PAD_RIGHT".as_slice() {
        Some(Scalar::Int(1))
    } else if name == b"STR_PAD_BOTH".as_slice() {
        Some(Scalar::Int(2))
    } else {
        None
    }
}

pub fn constant_action(alloc: Global, name: &Text) -> Result<Action, NoMemory>
    ensures { IfOk result (λ action. action ≡ form.constant_action (constant_of name.now) name.now) }
{
    match constant_of(alloc, name.bytes())? {
        Some(value) => Ok(Action::Stack(StackAction::Push(value))),
        None => Ok(Action::Name(NameAction::PushConstant(name.share()?))),
    }
}

pub fn magic_action(spot: Spot, magic: Magic) -> Action
    ensures { result ≡ form.push (form.magic_value (spot_view spot) magic) }
{
    let value = match magic {
        Magic::Line => Scalar::Int(i64::from(spot.line)),
        Magic::Class => Scalar::Str(Text::empty()),
        Magic::Function => Scalar::Str(Text::empty()),
        Magic::Method => Scalar::Str(Text::empty()),
    };
    Action::Stack(StackAction::Push(value))
}

// ---- operators

fn operate(op: Op) -> Option<Action>
    ensures { result ≡ Some (form.operate op) }
{
    Some(Action::Operator(OperatorAction::Operate(op)))
}

fn compare(relation: Relation) -> Option<Action>
    ensures { result ≡ Some (form.compare relation) }
{
    Some(Action::Operator(OperatorAction::Compare(relation)))
}

/// None of an operator that isn't told yet.
pub fn binary_action(op: Binary) -> Option<Action>
    ensures { result ≡ form.binary_action op }
{
    match op {
        Binary::Power => operate(Op::Pow),
        Binary::Times => operate(Op::Mul),
        Binary::Divided => operate(Op::Div),
        Binary::Remainder => operate(Op::Mod),
        Binary::Plus => operate(Op::Add),
        Binary::Minus => operate(Op::Sub),
        Binary::Concatenated => operate(Op::Concat),
        Binary::ShiftedLeft => operate(Op::Shl),
        Binary::ShiftedRight => operate(Op::Shr),
        Binary::BitAnd => operate(Op::And),
        Binary::BitXor => operate(Op::Xor),
        Binary::BitOr => operate(Op::Or),
        Binary::WordXor => operator(OperatorAction::ExclusiveOr),
        Binary::Less => compare(Relation::Less),
        Binary::LessEqual => compare(Relation::LessEqual),
        Binary::Greater => compare(Relation::Greater),
        Binary::GreaterEqual => compare(Relation::GreaterEqual),
        Binary::Equal => compare(Relation::Equal),
        Binary::NotEqual => compare(Relation::NotEqual),
        Binary::LessGreater => compare(Relation::NotEqual),
        Binary::Identical => operator(OperatorAction::Identical { negated: false }),
        Binary::NotIdentical => operator(OperatorAction::Identical { negated: true }),
        Binary::Compared => compare(Relation::Compared),
        Binary::LogicalAnd => None,
        Binary::LogicalOr => None,
        Binary::Coalesced => None,
        Binary::WordAnd => None,
        Binary::WordOr => None,
    }
}

fn operator(action: OperatorAction) -> Option<Action>
    ensures { result ≡ Some (form.operator action) }
{
    Some(Action::Operator(action))
}

/// None of one that does nothing, or isn't told yet.
pub fn prefix_action(op: Prefix) -> Option<Action>
    ensures { result ≡ form.prefix_action op }
{
    match op {
        Prefix::BitNot => operator(OperatorAction::Complement),
        Prefix::ToInt => operator(OperatorAction::ToInt),
        Prefix::ToBool => operator(OperatorAction::ToBool),
        Prefix::ToText => operator(OperatorAction::ToText),
        Prefix::Plus => operator(OperatorAction::Sign { negative: false }),
        Prefix::Minus => operator(OperatorAction::Sign { negative: true }),
        Prefix::Not => operator(OperatorAction::Not),
        Prefix::Print => Some(Action::Output(OutputAction::Print)),
        Prefix::Silence => None,
        Prefix::Clone => None,
        Prefix::Increment => None,
        Prefix::Decrement => None,
        Prefix::ToArray => None,
        Prefix::YieldFrom => None,
    }
}

pub fn read_action(alloc: Global, names: &IndexSet<Text>, name: &Text) -> Result<Action, NoMemory>
    ensures { IfOk result (λ action. action ≡ form.read_action (form.variable_form names.now.keys
        name.now)) }
{
    Ok(Action::Place(PlaceAction::Read(variable_form(alloc, names, name)?)))
}

pub fn assign_action(place: PlaceForm) -> Action
    ensures { result ≡ form.assign_action place }
{
    Action::Place(PlaceAction::Assign(place))
}

/// The tick of a statement.
pub fn tick(spot: Spot) -> Action
    ensures { result ≡ form.tick (spot_view spot) }
{
    Action::Jump(JumpAction::Tick(spot.line))
}
