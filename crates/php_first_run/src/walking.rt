ghost use Rattle.std.specs.Prelude.{◌≡◌, map, Some};
ghost use Rattle.php_base.specs.Streams.{stream_of};
ghost use Rattle.php_first_tree.specs.Expression.{command_view, part_view, statement_view, sum_view};
ghost use Rattle.php_first_run.specs.Evaluation.{evaluated};
ghost use Rattle.php_first_run.specs.Running.{assigned, echoed, part_text, run, step, takes_tick, text_at, text_of, texts_of};
ghost use Rattle.php_first_run.specs.Walking.{Assigns, Executes, Walks, Writes};

use crate::evaluate::evaluate;
use crate::value::Value;
use itoa::Buffer;
use php_base::{Sink, put_all};
use php_first_tree::{Action, Atom, Part, Statement, Sum};
use php_lex::Tokens;
use std::alloc::Global;

/// How a run stopped.
#[derive(Clone, Copy, Debug, PartialEq, Eq)]
pub enum Stop {
    /// All statements ran.
    Done,
    /// An integer overflow in the statement that begins on this line.
    Overflow(u32),
    /// No tick was left for a statement.
    Cut,
    /// The sink failed. What was written is the beginning of the output.
    SinkFault,
}

/// How a run stopped, and how many ticks it took.
#[derive(Clone, Copy, Debug, PartialEq, Eq)]
pub struct Walked {
    pub stop: Stop,
    pub ticks: u64,
}

/// How a statement, or a part of one, ended.
#[derive(Clone, Copy, Debug, PartialEq, Eq)]
enum Step {
    Done,
    Overflow,
    SinkFault,
}

fn emit<O: Sink>(out: &mut O, bytes: &[u8]) -> Step
    ensures { Writes (Some bytes.now) result
        (stream_of O.written O.faults out.old) (stream_of O.written O.faults out.new) }
{
    match put_all(out, bytes) {
        Ok(()) => Step::Done,
        Err(_) => Step::SinkFault,
    }
}

fn write_value<O: Sink>(out: &mut O, value: Value) -> Step
    ensures { Writes (Some (text_of value)) result
        (stream_of O.written O.faults out.old) (stream_of O.written O.faults out.new) }
{
    match value {
        Value::Null => emit(out, b""),
        Value::Int(n) => {
            let mut buffer = Buffer::new();
            emit(out, buffer.format(n).as_bytes())
        }
    }
}

/// The text of the token at a place; past the end there is none.
fn text<'a>(tokens: &'a Tokens, at: usize) -> &'a [u8]
    ensures { result.now ≡ text_at (texts_of tokens.now) at }
{
    if at < tokens.len() {
        tokens.text(at)
    } else {
        &[]
    }
}

fn write_part<O: Sink>(
    alloc: Global,
    tokens: &Tokens,
    values: &[Value],
    part: &Part,
    out: &mut O,
) -> Step
    ensures { Writes (part_text (texts_of tokens.now) values.now (part_view part.now)) result
        (stream_of O.written O.faults out.old) (stream_of O.written O.faults out.new) }
{
    match part {
        Part::Text(at) => emit(out, text(tokens, *at)),
        Part::Value(sum) => match evaluate(alloc, values, sum) {
            Some(value) => write_value(out, value),
            None => Step::Overflow,
        },
    }
}

fn echo<O: Sink>(
    alloc: Global,
    tokens: &Tokens,
    values: &[Value],
    parts: &[Part],
    out: &mut O,
) -> Step
    ensures { Executes (echoed (texts_of tokens.now) values.now (map part_view parts.now)) result values.now
        (stream_of O.written O.faults out.old) (stream_of O.written O.faults out.new) }
{
    for part in parts {
        match write_part(alloc, tokens, values, part, out) {
            Step::Done => {}
            Step::Overflow => return Step::Overflow,
            Step::SinkFault => return Step::SinkFault,
        }
    }
    Step::Done
}

fn assign(alloc: Global, values: &mut [Value], number: usize, sum: &Sum<Atom>) -> Step
    ensures { Assigns (assigned values.old number (evaluated values.old (sum_view sum.now))) result values.new }
{
    let Some(value) = evaluate(alloc, values, sum) else {
        return Step::Overflow;
    };
    if number < values.len() {
        values[number] = value;
    }
    Step::Done
}

fn execute<O: Sink>(
    alloc: Global,
    tokens: &Tokens,
    values: &mut [Value],
    action: &Action,
    out: &mut O,
) -> Step
    ensures { Executes (step (texts_of tokens.now) values.old (command_view action.now)) result values.new
        (stream_of O.written O.faults out.old) (stream_of O.written O.faults out.new) }
{
    match action {
        Action::Assign(number, sum) => assign(alloc, values, *number, sum),
        Action::Echo(parts) => echo(alloc, tokens, values, parts.as_slice(), out),
        Action::Inline(at) => emit(out, text(tokens, *at)),
        Action::Empty => Step::Done,
    }
}

fn wants_tick(action: &Action) -> bool
    ensures { result ≡ takes_tick (command_view action.now) }
{
    !matches!(action, Action::Empty)
}

/// Runs the statements over the values of the variables, with an allowance of ticks.
///
/// The tokens are those of the script: texts are written from there and not copied. At a place past
/// their end there is no text, and nothing is written.
pub fn walk<O: Sink>(
    alloc: Global,
    tokens: &Tokens,
    values: &mut [Value],
    statements: &[Statement],
    allowance: u64,
    out: &mut O,
) -> Walked
    ensures { Walks (run (texts_of tokens.now) allowance 0 values.old (map statement_view statements.now)) result.stop result.ticks
        (stream_of O.written O.faults out.old) (stream_of O.written O.faults out.new) }
{
    let mut ticks = 0;
    for statement in statements {
        if !wants_tick(&statement.action) {
            continue;
        }
        if ticks >= allowance {
            return Walked {
                stop: Stop::Cut,
                ticks,
            };
        }
        ticks += 1;
        let stop = match execute(alloc, tokens, values, &statement.action, out) {
            Step::Done => continue,
            Step::Overflow => Stop::Overflow(statement.line),
            Step::SinkFault => Stop::SinkFault,
        };
        return Walked { stop, ticks };
    }
    Walked {
        stop: Stop::Done,
        ticks,
    }
}
