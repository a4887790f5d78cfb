// The compiler.
ghost use Rattle.std.specs.Prelude.{◌≡◌, IfOk};
ghost use Rattle.php_machine.specs.Same.{SameRuns};
ghost use Rattle.php_ast.specs.declaration.View.{item_view, script_view};
ghost use Rattle.php_ast.specs.statement.View.{sequence};
ghost use Rattle.php_actions.specs.Plan.{rules};
ghost use Rattle.php_code.specs.Code.{code};
ghost use Rattle.php_meaning.specs.Facts.{facts_of, script_fact};
ghost use Rattle.php_meaning.specs.Heights.{peak_of_script};
ghost use Rattle.php_meaning.specs.Meaning.{tree};
ghost use Rattle.php_meaning.specs.Slots.{first_names, names_of_script};
ghost use Rattle.php_compile.specs.Compiled.{compiled, program_of};
ghost use Rattle.php_compile.specs.StatementCode.{items_code};

use crate::emitter::{Emitter, above};
use crate::naming::name_items;
use indexmap::IndexSet;
use php_actions::{Facts, FunctionFact};
use php_ast::{Script, ScriptItem};
use php_base::NoMemory;
use php_code::{Function, Program};
use php_frames::Ranges;
use php_value::Text;
use sqlite_items::Items;
use std::alloc::Global;

// How many temporaries a frame has room for beside those of its body: a completion's value, what is thrown and
// its parts, and what a call from within an action is given and answers.
const SPARE: usize = 6;

/// The program of a script: from the same data, under the same numbers for the frames, its code runs as the script
/// does. The time is linear in the size of the script, and texts are shared and not copied.
pub fn compile(alloc: Global, script: &Script) -> Result<Program, NoMemory>
    ensures program { IfOk result (λ program. program ≡ compiled (script_view script.now)) }
    ensures runs { IfOk result (λ program. SameRuns (rules (facts_of (script_view script.now)))
        (tree (script_view script.now)) (code program)) }
{
    program_for(alloc, script)
}

fn program_for(alloc: Global, script: &Script) -> Result<Program, NoMemory>
    ensures { IfOk result (λ program. program ≡ compiled (script_view script.now)) }
{
    let items = script.items.as_slice();
    let names = script_names(alloc, items)?;
    let emitted = emitted(alloc, &names, items)?;
    with_facts(alloc, emitted)
}

fn script_names(alloc: Global, items: &[ScriptItem]) -> Result<IndexSet<Text>, NoMemory>
    ensures { IfOk result (λ names. names.keys ≡ names_of_script first_names (sequence item_view items.now)) }
{
    let mut names = first_names(alloc)?;
    name_items(&mut names, items)?;
    Ok(names)
}

// The variables that each script has.
fn first_names(alloc: Global) -> Result<IndexSet<Text>, NoMemory>
    ensures { IfOk result (λ names. names.keys ≡ first_names) }
{
    let mut names = IndexSet::new(alloc);
    names.insert_full(Text::from_bytes(alloc, b"argv")?)?;
    names.insert_full(Text::from_bytes(alloc, b"argc")?)?;
    Ok(names)
}

fn emitted(alloc: Global, names: &IndexSet<Text>, items: &[ScriptItem]) -> Result<Emitter, NoMemory>
    ensures code { IfOk result (λ e. e.code ≡ items_code names.now.keys (sequence item_view items.now)) }
    ensures peak { IfOk result (λ e. e.peak ≡ peak_of_script names.now.keys 0 (sequence item_view items.now)) }
{
    let mut emitter = Emitter::new(alloc);
    emitter.put_items(names, items)?;
    Ok(emitter)
}

// The program whose only function has this code.
fn with_facts(alloc: Global, emitted: Emitter) -> Result<Program, NoMemory>
    ensures { IfOk result (λ program. program ≡ program_of emitted.code emitted.peak) }
{
    let fact = script_fact(alloc, emitted.peak)?;
    let mut facts = Items::new(alloc);
    facts.push(fact)?;
    let mut functions = Items::new(alloc);
    functions.push(Function {
        code: emitted.code,
        ranges: Ranges::new(alloc),
    })?;
    Ok(Program {
        functions,
        facts: Facts {
            functions: facts,
            statics: 0,
        },
    })
}

// What is known of the script's own part, in which so many temporaries stand at most.
fn script_fact(alloc: Global, peak: usize) -> Result<FunctionFact, NoMemory>
    ensures { IfOk result (λ fact. fact ≡ script_fact peak) }
{
    Ok(FunctionFact {
        name: Text::empty(),
        line: 1,
        params: Items::new(alloc),
        required: 0,
        returns_link: false,
        result: None,
        room: above(peak, SPARE)?,
        has_this: false,
        is_strict: false,
        is_prelude: false,
    })
}
