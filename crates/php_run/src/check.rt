// The check of a legal script: how many functions and classes it declares.
ghost use Rattle.std.specs.Prelude.{◌≡◌, List, ℕ, map};
ghost use Rattle.php_base.specs.Streams.{stream_of};
ghost use Rattle.php_ast.specs.declaration.View.{item_view, script_view};
ghost use Rattle.php_run.specs.Answer.{counted};
ghost use Rattle.php_run.specs.Called.{CanEnd};
ghost use Rattle.php_run.specs.Checked.{checked};
ghost use Rattle.php_run.specs.Counting.{IsTally};
ghost use Rattle.php_run.specs.Shown.{shown};

use crate::answer::{Answer, fixed, not_yet, stopped};
use crate::message::put_number;
use crate::report::Kind;
use php_ast::{Script, ScriptItem};
use php_base::Sink;

/// What a script declares.
#[derive(Clone, Copy)]
enum Tally {
    /// So many functions, and no class.
    Functions(usize),
    /// A class, an interface or a trait; the first one is on this line.
    Class(u32),
}

fn tallied(items: &[ScriptItem]) -> Tally
    ensures { IsTally (map item_view items.now) result }
{
    let mut functions = 0;
    for item in items {
        match item {
            ScriptItem::Statement(_) => {}
            ScriptItem::Function(_) => functions += 1,
            ScriptItem::Class(class) => return Tally::Class(class.spot.line),
            ScriptItem::Interface(interface) => return Tally::Class(interface.spot.line),
            ScriptItem::Trait(item) => return Tally::Class(item.spot.line),
        }
    }
    Tally::Functions(functions)
}

/// Writes how many functions a script declares, beside no class.
fn put_count<O: Sink>(functions: usize, out: &mut O) -> Answer<'static>
    ensures { (output : List ℕ) × CanEnd (λ whole. whole ≡ counted functions 0)
        (stream_of O.written O.faults out.old) (stream_of O.written O.faults out.new) (shown result output) }
{
    match put_number(out, "ok: ", functions, " functions, 0 classes\n") {
        Ok(()) => stopped(Kind::Done, 0, fixed("")),
        Err(_) => stopped(Kind::SinkFault, 0, fixed("phprun: cannot write output\n")),
    }
}

/// Counts what a legal script declares, and writes the numbers.
pub(crate) fn answer_check<O: Sink>(script: &Script, out: &mut O) -> Answer<'static>
    ensures { (output : List ℕ) × CanEnd (λ whole. whole ≡ checked (script_view script.now))
        (stream_of O.written O.faults out.old) (stream_of O.written O.faults out.new) (shown result output) }
{
    match tallied(script.items.as_slice()) {
        Tally::Functions(functions) => put_count(functions, out),
        Tally::Class(line) => not_yet(line),
    }
}
