// The language that runs today. No other file calls the crates of that language; a machine for the
// whole language takes its place.
ghost use Rattle.std.specs.Prelude.{◌≡◌, ℕ, List, IfOk, IfSome, [], map, replicate};
ghost use Rattle.std.specs.List.{list_all};
ghost use Rattle.php_base.specs.Streams.{stream_of};
ghost use Rattle.php_first_tree.specs.Expression.{Statement as StatementMeant, statement_view};
ghost use Rattle.php_first_tokens.specs.Lexemes.{names_of};
ghost use Rattle.php_first_run.specs.declared.value.Value.TheVariants.{Null};
ghost use Rattle.php_first_run.specs.Running.{texts_of};
ghost use Rattle.php_run.specs.Called.{CanEnd};
ghost use Rattle.php_run.specs.Shown.{shown};
ghost use Rattle.php_ast.specs.declaration.View.{script_view};
ghost use Rattle.php_first_forms.specs.Forms as forms;
ghost use Rattle.php_first_forms.specs.Forms.{is_allowed};
ghost use Rattle.php_run.specs.Answer.{not_yet};
ghost use Rattle.php_run.specs.Today.{IsAfter, IsOwedByScript, IsRead, IsScript, answer_of, line_of, permits, run_of};

use crate::answer::{Answer, fixed, not_yet, on_line, starved, stopped};
use crate::report::Kind;
use php_ast::Script as WholeScript;
use php_base::{NoMemory, Sink};
use php_first_forms::{first_left_out, is_allowed_name};
use php_first_parse::parse;
use php_first_run::{Stop, Value, Walked, walk};
use php_first_tokens::narrow;
use php_first_tree::Script;
use php_lex::Tokens;
use php_value::Fault;
use std::alloc::Global;

/// The greatest number of different variables in a script.
const MOST_VARIABLES: usize = 65_535;

fn are_allowed(names: &[&[u8]]) -> bool
    ensures { result ≡ list_all (λ name. is_allowed name.now) names.now }
{
    names.iter().all(|name| is_allowed_name(name))
}

fn are_permitted(names: &[&[u8]]) -> bool
    ensures { result ≡ permits (names_of names.now) }
{
    names.len() <= MOST_VARIABLES && are_allowed(names)
}

/// Reads the script that the tokens of a file are. `None` where they are none: a token is none of the
/// language, a variable's name isn't permitted, or there are too many, or the tokens spell no statements.
fn read_script(alloc: Global, tokens: &Tokens) -> Result<Option<Script>, NoMemory>
    ensures found { IfOk result (λ found. IfSome found (λ s. IsScript tokens.now s.variables (map statement_view s.statements))) }
    ensures only { (variables : ℕ) (statements : List StatementMeant) → IsScript tokens.now variables statements →
        IfOk result (λ found. IsRead found variables statements) }
{
    let Some(first) = narrow(alloc, tokens)? else {
        return Ok(None);
    };
    if !are_permitted(first.names.as_slice()) {
        return Ok(None);
    }
    let Some(statements) = parse(alloc, first.tokens.as_slice())? else {
        return Ok(None);
    };
    Ok(Some(Script {
        variables: first.names.len(),
        statements,
    }))
}

fn nulls(alloc: Global, count: usize) -> Result<Vec<Value>, NoMemory>
    ensures { IfOk result (λ values. values.items ≡ replicate count Null) }
{
    let mut values = Vec::with_capacity(alloc, count)?;
    for _made in 0..count {
        values.push(Value::Null)?;
    }
    Ok(values)
}

fn after_run(walked: Walked) -> Answer<'static>
    ensures { IsAfter walked.stop walked.ticks result }
{
    let ticks = walked.ticks;
    match walked.stop {
        Stop::Done => stopped(Kind::Done, ticks, fixed("")),
        Stop::Overflow(line) => {
            let message = on_line("phprun: fatal: integer overflow on line ", line);
            stopped(Kind::Fatal(Fault::Overflow), ticks, message)
        }
        Stop::Cut => {
            let message = fixed("phprun: step allowance used up\n");
            stopped(Kind::Cut, ticks, message)
        }
        Stop::SinkFault => {
            let message = fixed("phprun: cannot write output\n");
            stopped(Kind::SinkFault, ticks, message)
        }
    }
}

/// Runs a script from its beginning, with the texts of its tokens.
fn run_script<O: Sink>(
    alloc: Global,
    tokens: &Tokens,
    script: &Script,
    allowance: u64,
    out: &mut O,
) -> Answer<'static>
    ensures { (output : List ℕ)
        × CanEnd (λ whole. whole ≡ answer_of (run_of (texts_of tokens.now) allowance script.now.variables (map statement_view script.now.statements)))
        (stream_of O.written O.faults out.old) (stream_of O.written O.faults out.new) (shown result output) }
{
    let Ok(mut values) = nulls(alloc, script.variables) else {
        return starved();
    };
    let walked = walk(
        alloc,
        tokens,
        &mut values,
        script.statements.as_slice(),
        allowance,
        out,
    );
    after_run(walked)
}

/// The refusal at the first form that doesn't run yet.
fn refused(script: &WholeScript) -> Answer<'static>
    ensures { shown result [] ≡ not_yet (line_of (forms.first_left_out (script_view script.now))) }
{
    match first_left_out(script) {
        Some(spot) => not_yet(spot.line),
        None => not_yet(1),
    }
}

/// Runs a legal script, where its tokens are one of the language that runs today.
pub(crate) fn answer_script<O: Sink>(
    alloc: Global,
    tokens: &Tokens,
    script: &WholeScript,
    allowance: u64,
    out: &mut O,
) -> Answer<'static>
    ensures { (output : List ℕ) × CanEnd (IsOwedByScript tokens.now (script_view script.now) allowance)
        (stream_of O.written O.faults out.old) (stream_of O.written O.faults out.new) (shown result output) }
{
    match read_script(alloc, tokens) {
        Ok(Some(first)) => run_script(alloc, tokens, &first, allowance, out),
        Ok(None) => refused(script),
        Err(NoMemory) => starved(),
    }
}
