// Code as a list of words.

use php_actions::{
    Action, BaseForm, CallAction, JumpAction, NameAction, OperatorAction, OutputAction,
    PlaceAction, PlaceForm, Relation, StackAction,
};
use php_code::Instr;
use php_value::{Scalar, Text};
use std::alloc::{AllocError, Global};

/// The instructions, each with a semicolon behind it.
pub(crate) fn listed(alloc: Global, code: &[Instr]) -> Result<String, AllocError> {
    let mut text = String::new(alloc);
    for instr in code {
        let word = instr_text(alloc, instr)?;
        text.push_str(word.as_str())?;
        text.push_str(";")?;
    }
    Ok(text)
}

fn instr_text(alloc: Global, instr: &Instr) -> Result<String, AllocError> {
    match instr {
        Instr::Do(action) => action_text(alloc, action),
        Instr::Unless(n) => format!(in alloc; "unless {n}"),
        Instr::Go(n) => format!(in alloc; "go {n}"),
        Instr::TickBack(line, n) => format!(in alloc; "tick {line} back {n}"),
    }
}

fn action_text(alloc: Global, action: &Action) -> Result<String, AllocError> {
    match action {
        Action::Stack(stack) => stack_text(alloc, stack),
        Action::Place(place) => place_action_text(alloc, place),
        Action::Operator(operator) => operator_text(alloc, operator),
        Action::Output(output) => output_text(alloc, output),
        Action::Name(NameAction::PushConstant(name)) => named(alloc, "constant", name),
        Action::Call(CallAction::EndBody) => format!(in alloc; "end"),
        Action::Jump(JumpAction::Tick(line)) => format!(in alloc; "tick {line}"),
    }
}

// A line feed is shown as `\n`, and so a backslash doubled: a listing is one line.
fn named(alloc: Global, word: &str, text: &Text) -> Result<String, AllocError> {
    let mut shown = String::new(alloc);
    for byte in text.bytes() {
        match *byte {
            b'\n' => shown.push_str("\\n")?,
            b'\\' => shown.push_str("\\\\")?,
            byte => shown.push(byte as char)?,
        }
    }
    format!(in alloc; "{word} '{shown}'")
}

fn stack_text(alloc: Global, action: &StackAction) -> Result<String, AllocError> {
    match action {
        StackAction::Push(value) => push_text(alloc, value),
        StackAction::PushArray => format!(in alloc; "push array"),
        StackAction::Drop => format!(in alloc; "drop"),
        StackAction::Swap => format!(in alloc; "swap"),
        StackAction::Duplicate => format!(in alloc; "duplicate"),
        StackAction::Settle => format!(in alloc; "settle"),
        StackAction::TestTruth => format!(in alloc; "test truth"),
        StackAction::TestNotNull => format!(in alloc; "test not null"),
    }
}

fn push_text(alloc: Global, value: &Scalar) -> Result<String, AllocError> {
    match value {
        Scalar::Null => format!(in alloc; "push null"),
        Scalar::Bool(b) => format!(in alloc; "push {b}"),
        Scalar::Int(i) => format!(in alloc; "push {i}"),
        Scalar::Str(text) => named(alloc, "push", text),
    }
}

fn place_action_text(alloc: Global, action: &PlaceAction) -> Result<String, AllocError> {
    match action {
        PlaceAction::Read(form) => form_text(alloc, "read", form),
        PlaceAction::Assign(form) => form_text(alloc, "assign", form),
    }
}

fn form_text(alloc: Global, word: &str, form: &PlaceForm) -> Result<String, AllocError> {
    match &form.base {
        BaseForm::Variable(name) => {
            let number = name.0;
            format!(in alloc; "{word} ${number}")
        }
        BaseForm::Standing => format!(in alloc; "{word} standing"),
        BaseForm::This => format!(in alloc; "{word} $this"),
    }
}

fn relation_text(relation: Relation) -> &'static str {
    match relation {
        Relation::Equal => "==",
        Relation::NotEqual => "!=",
        Relation::Less => "<",
        Relation::LessEqual => "<=",
        Relation::Greater => ">",
        Relation::GreaterEqual => ">=",
        Relation::Compared => "<=>",
    }
}

fn operator_text(alloc: Global, action: &OperatorAction) -> Result<String, AllocError> {
    match action {
        OperatorAction::Operate(op) => format!(in alloc; "{op:?}"),
        OperatorAction::Compare(relation) => {
            let asked = relation_text(*relation);
            format!(in alloc; "compare {asked}")
        }
        OperatorAction::Identical { negated } => format!(in alloc; "identical {negated}"),
        OperatorAction::TestCase => format!(in alloc; "test case"),
        OperatorAction::ExclusiveOr => format!(in alloc; "xor"),
        OperatorAction::ToBool => format!(in alloc; "to bool"),
        OperatorAction::Not => format!(in alloc; "not"),
        OperatorAction::ToInt => format!(in alloc; "to int"),
        OperatorAction::ToText => format!(in alloc; "to text"),
        OperatorAction::Sign { negative } => format!(in alloc; "sign {negative}"),
        OperatorAction::Complement => format!(in alloc; "complement"),
        OperatorAction::Count { up } => format!(in alloc; "count {up}"),
        OperatorAction::Join(n) => format!(in alloc; "join {n}"),
    }
}

fn output_text(alloc: Global, action: &OutputAction) -> Result<String, AllocError> {
    match action {
        OutputAction::Echo => format!(in alloc; "echo"),
        OutputAction::Write(text) => named(alloc, "write", text),
        OutputAction::Print => format!(in alloc; "print"),
    }
}
