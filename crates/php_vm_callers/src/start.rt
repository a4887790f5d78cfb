// How a run begins.
ghost use Rattle.std.specs.Prelude.{◌≡◌, ◌<◌, ◌^◌, [], ◌∷◌, IfOk};
ghost use Rattle.php_memdef.specs.declared.place.Step.TheVariants.{Push};
ghost use Rattle.php_memdef.specs.Contents.{fresh};
ghost use Rattle.php_memdef.specs.Meanings.{SomeMeant, Does};
ghost use Rattle.php_memdef.specs.Operations as op;
ghost use Rattle.php_memdef.specs.Operations.{Can, effect};
ghost use Rattle.php_actions.specs.Effect.{nth_fact};
ghost use Rattle.php_actions.specs.Start.{room_if, variable_place};
ghost use Rattle.php_vm_actions.specs.Straight.{CanAll, all};
ghost use Rattle.php_vm.specs.Finishing.{BeginsWith};
ghost use Rattle.php_vm.specs.Running.{NeverStuck, control_of};
ghost use Rattle.php_runnable.specs.Arguments.{AreArguments};
ghost use Rattle.php_runnable_code.specs.Runnable.{IsRunnable, first_data};
ghost use Rattle.php_vm_callers.specs.Beginnings.{bytes_of, array_set, word_added, words_added, count_set, HasBegun};

use php_base::NoMemory;
use php_code::Program;
use php_frames::{Completion, Frame, Way};
use php_memdef::{Base, Block, Memory, Name, Path, Place, Step};
use php_value::{Scalar, Text};
use std::alloc::Global;

/// Makes the block of the script's own part, with room for so many temporaries, in a memory in which nothing was made,
/// and hands out the frame in which the script begins. Its first variable is the list of the words, in their order, and
/// its second one their number.
pub fn begin<M: Memory>(
    alloc: Global,
    memory: &mut M,
    room: usize,
    words: &[String],
) -> Result<Frame, NoMemory>
    requires nothing_made { M.means memory.old fresh }
    requires some_room { 0 < room }
    requires arguments { AreArguments (bytes_of words.now) }
    ensures { IfOk result (λ frame. HasBegun (M.means memory.new) room (bytes_of words.now) frame) }
{
    let block = memory.enter(room)?;
    set_array(alloc, memory, block)?;
    add_words(alloc, memory, block, words)?;
    set_count(alloc, memory, block, words.len())?;
    Ok(Frame {
        function: 0,
        at: 0,
        line: 1,
        block,
        class: None,
        called: None,
        given: None,
        pending: Completion::Normal,
        way: Way::Going,
    })
}

/// Once a run has begun, `Vm::run` may be called: it begins with the program's first data for these words in the frame's
/// block.
pub fn can_run<M: Memory>(
    program: &Program,
    memory: &M,
    frame: &Frame,
    room: usize,
    allowance: u64,
    words: &[String],
)
    requires runnable { IsRunnable program.now }
    requires arguments { AreArguments (bytes_of words.now) }
    requires room { room ≡ room_if (nth_fact program.now.facts.functions 0) }
    requires begun { HasBegun (M.means memory.now) room (bytes_of words.now) frame.now }
    ensures begins { BeginsWith (M.means memory.now) frame.now allowance
        (first_data program.now allowance (bytes_of words.now) frame.now.block) }
    ensures runnable { NeverStuck program.now (first_data program.now allowance (bytes_of words.now) frame.now.block)
        (control_of frame.now) }
{}

// The words are variable 0. At first there is none.
fn set_array<M: Memory>(alloc: Global, memory: &mut M, block: Block) -> Result<(), NoMemory>
    requires { SomeMeant (M.means memory.old) (CanAll (array_set block.0)) }
    ensures { IfOk result (λ _. Does (M.means memory.old) (M.means memory.new) (all (array_set block.0))) }
{
    memory.push_array(block)?;
    move_into(alloc, memory, block, Name(0))
}

// Each word moves behind those that are there.
fn add_words<M: Memory>(
    alloc: Global,
    memory: &mut M,
    block: Block,
    words: &[String],
) -> Result<(), NoMemory>
    requires { SomeMeant (M.means memory.old) (CanAll (words_added block.0 (bytes_of words.now))) }
    ensures { IfOk result (λ _. Does (M.means memory.old) (M.means memory.new) (all (words_added block.0 (bytes_of words.now)))) }
{
    let place = behind_all(alloc, block)?;
    for word in words {
        add_word(alloc, memory, block, &place, word.as_bytes())?;
    }
    Ok(())
}

fn add_word<M: Memory>(
    alloc: Global,
    memory: &mut M,
    block: Block,
    behind_all: &Place,
    word: &[u8],
) -> Result<(), NoMemory>
    requires place { behind_all.now ≡ variable_place block.0 0 (Push ∷ []) }
    requires can { SomeMeant (M.means memory.old) (CanAll (word_added block.0 word.now)) }
    ensures { IfOk result (λ _. Does (M.means memory.old) (M.means memory.new) (all (word_added block.0 word.now))) }
{
    let text = Text::from_bytes(alloc, word)?;
    memory.push(block, Scalar::Str(text));
    memory.assign(block, behind_all)?;
    Ok(())
}

// Their number is variable 1.
fn set_count<M: Memory>(
    alloc: Global,
    memory: &mut M,
    block: Block,
    count: usize,
) -> Result<(), NoMemory>
    requires fits { count < 2 ^ 63 }
    requires can { SomeMeant (M.means memory.old) (CanAll (count_set block.0 count)) }
    ensures { IfOk result (λ _. Does (M.means memory.old) (M.means memory.new) (all (count_set block.0 count))) }
{
    memory.push(block, Scalar::Int(count as i64));
    move_into(alloc, memory, block, Name(1))
}

// Moves the top temporary into a variable.
fn move_into<M: Memory>(
    alloc: Global,
    memory: &mut M,
    block: Block,
    name: Name,
) -> Result<(), NoMemory>
    requires { SomeMeant (M.means memory.old) (Can (op.assign block.0 (variable_place block.0 name.0 []))) }
    ensures { IfOk result (λ _. Does (M.means memory.old) (M.means memory.new) (effect (op.assign block.0 (variable_place block.0 name.0 [])))) }
{
    let place = variable(alloc, block, name);
    memory.assign(block, &place)?;
    Ok(())
}

fn variable(alloc: Global, block: Block, name: Name) -> Place
    ensures { result ≡ variable_place block.0 name.0 [] }
{
    Place {
        base: Base::Var(block, name),
        path: Path::new(alloc),
    }
}

// A new element of variable 0.
fn behind_all(alloc: Global, block: Block) -> Result<Place, NoMemory>
    ensures { IfOk result (λ place. place ≡ variable_place block.0 0 (Push ∷ [])) }
{
    let mut place = variable(alloc, block, Name(0));
    place.path.push(Step::Push)?;
    Ok(place)
}
