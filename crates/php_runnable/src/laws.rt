// Why no run of a script is stuck, and none needs a number for a frame. Each function says it in its contract, and its body
// is empty.
ghost use Rattle.std.specs.Prelude.{◌≡◌, ◌≢◌, ℕ, ◌+◌, ◌*◌, List, length};
ghost use Rattle.php_machine.specs.Moves.{Stuck, Unnumbered};
ghost use Rattle.php_machine.specs.Machine.{runs};
ghost use Rattle.php_ast.specs.declaration.Tree.{Script};
ghost use Rattle.php_ast.specs.expression.View.{Note};
ghost use Rattle.php_actions.specs.Data.{Frame, Data};
ghost use Rattle.php_actions.specs.Plan.{rules};
ghost use Rattle.php_actions.specs.Start.{first, script_frame};
ghost use Rattle.php_meaning.specs.Facts.{facts_of};
ghost use Rattle.php_meaning.specs.Meaning.{tree};
ghost use Rattle.php_runnable.specs.Told.{IsScriptTold};
ghost use Rattle.php_runnable.specs.Arguments.{AreArguments};
ghost use Rattle.php_runnable.specs.Begins.{CanBegin};
ghost use Rattle.php_runnable.specs.Examples.{AreListed};

/// No run of a script's tree is stuck where all forms of the script are told, under any numbers for the frames.
pub fn told_scripts_are_never_stuck()
    ensures { (script : Script Note) (f : Frame) (d : Data) → IsScriptTold script → CanBegin (facts_of script) f d →
        (n : ℕ) (ns : List ℕ) → runs (rules (facts_of script)) (tree script) n ns d ≢ Stuck }
{}

/// Nor does such a run need a number for a frame, since no further frame begins in it.
pub fn told_scripts_need_no_numbers()
    ensures { (script : Script Note) (f : Frame) (d : Data) → IsScriptTold script → CanBegin (facts_of script) f d →
        (n : ℕ) (ns : List ℕ) → runs (rules (facts_of script)) (tree script) n ns d ≢ Unnumbered }
{}

/// The data with which the run of a script begins is such data, whatever its arguments are.
pub fn first_data_can_begin()
    ensures { (script : Script Note) (allowance : ℕ) (words : List (List ℕ)) (b : ℕ) → AreArguments words →
        CanBegin (facts_of script) (script_frame b) (first (facts_of script) allowance words b) }
{}

/// The count of writes begins with what it costs to put the arguments behind one another: a step for each, and the entries
/// that stand there by then. So it is n (n + 1) / 2 for n arguments.
pub fn first_data_counts_arguments()
    ensures { (script : Script Note) (allowance : ℕ) (words : List (List ℕ)) (b : ℕ) → AreArguments words →
        2 * (first (facts_of script) allowance words b).writes ≡ length words * (length words + 1) }
{}

/// What the variables of a script with two arguments hold when it begins: the one for its file's name, and one behind it.
pub fn two_arguments_are_listed()
    ensures { AreListed }
{}
