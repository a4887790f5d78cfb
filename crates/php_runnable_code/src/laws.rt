// Why the machine may run the code of a script. Each function says it in its contract, and its body is empty.
ghost use Rattle.std.specs.Prelude.{◌≡◌, ◌<◌, ℕ, List};
ghost use Rattle.php_ast.specs.declaration.Tree.{Script};
ghost use Rattle.php_ast.specs.expression.View.{Note};
ghost use Rattle.php_frames.specs.declared.frame.Frame.{Frame};
ghost use Rattle.php_actions.specs.Data.{Data};
ghost use Rattle.php_actions.specs.Effect.{nth_fact};
ghost use Rattle.php_actions.specs.Start.{room_if};
ghost use Rattle.php_code.specs.declared.program.Program.{Program};
ghost use Rattle.php_meaning.specs.Facts.{facts_of};
ghost use Rattle.php_compile.specs.Compiled.{compiled};
ghost use Rattle.php_vm_actions.specs.Acting.{frame_of};
ghost use Rattle.php_vm.specs.Running.{NeverStuck, control_of};
ghost use Rattle.php_vm.specs.Finishing.{BeginsWith};
ghost use Rattle.php_runnable.specs.Told.{IsScriptTold};
ghost use Rattle.php_runnable.specs.Arguments.{AreArguments};
ghost use Rattle.php_runnable.specs.Begins.{CanBegin};
ghost use Rattle.php_runnable_code.specs.Runnable.{IsRunnable, first_data, first_frame};

use php_memdef::{Block, Memory};

/// No run of the code of a script is stuck where all forms of the script are told, from data with which a run can
/// begin, in a frame that stands at the beginning of the script's own part.
pub fn compiled_scripts_are_never_stuck()
    ensures { (script : Script Note) (f : Frame) (d : Data) → IsScriptTold script → CanBegin (facts_of script) (frame_of f) d →
        f.at ≡ 0 → NeverStuck (compiled script) d (control_of f) }
{}

/// The program of a script is one that the machine may run where all forms of the script are told.
pub fn compiled_scripts_are_runnable()
    ensures { (script : Script Note) → IsScriptTold script → IsRunnable (compiled script) }
{}

/// A run begins with a program's first data, whatever the arguments are, over each memory that can be taken for the memory
/// of that data.
pub fn runs_can_begin<M: Memory>(memory: &M, block: Block)
    ensures { (program : Program) (allowance : ℕ) (words : List (List ℕ)) → AreArguments words →
        0 < room_if (nth_fact program.facts.functions 0) → M.means memory.now (first_data program allowance words block).mem →
        BeginsWith (M.means memory.now) (first_frame block) allowance (first_data program allowance words block) }
{}
