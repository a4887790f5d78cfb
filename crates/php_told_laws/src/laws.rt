// Why the run of a script whose forms are all told comes to an end. Each function says it in its contract, and its body is
// empty.
ghost use Rattle.std.specs.Prelude.{◌≡◌, ℕ, List};
ghost use Rattle.php_ast.specs.declaration.Tree.{Script};
ghost use Rattle.php_ast.specs.expression.View.{Note};
ghost use Rattle.php_machine.specs.Moves.{Ended};
ghost use Rattle.php_machine.specs.Machine.{runs};
ghost use Rattle.php_actions.specs.declared.ending.Ending.{Ending};
ghost use Rattle.php_actions.specs.Data.{Frame, Data};
ghost use Rattle.php_actions.specs.Plan.{rules};
ghost use Rattle.php_actions.specs.Start.{first};
ghost use Rattle.php_meaning.specs.Facts.{facts_of};
ghost use Rattle.php_meaning.specs.Meaning.{tree};
ghost use Rattle.php_runnable.specs.Told.{IsScriptTold};
ghost use Rattle.php_runnable.specs.Arguments.{AreArguments};
ghost use Rattle.php_runnable.specs.Begins.{CanBegin};
ghost use Rattle.php_told_laws.specs.Ending.{RunEnds};

/// From all data with which the script's own part can begin, the run of its tree ends, in one way and with one last data
/// whatever the numbers for frames are.
pub fn told_scripts_end_from()
    ensures { (script : Script Note) (f : Frame) (d : Data) → IsScriptTold script → CanBegin (facts_of script) f d → RunEnds script d }
{}

/// So does its run with any arguments within their limits, whatever the allowance and the block.
pub fn told_scripts_end()
    ensures { (script : Script Note) (allowance : ℕ) (words : List (List ℕ)) (b : ℕ) → IsScriptTold script → AreArguments words →
        RunEnds script (first (facts_of script) allowance words b) }
{}

/// It ends in no other way than that: any two endings of such runs are the same, under any numbers for frames each.
pub fn told_scripts_end_in_one_way()
    ensures { (script : Script Note) (f : Frame) (d : Data) → IsScriptTold script → CanBegin (facts_of script) f d →
        (n m : ℕ) (ns ms : List ℕ) (w v : Ending) (x y : Data) →
        runs (rules (facts_of script)) (tree script) n ns d ≡ Ended w x → runs (rules (facts_of script)) (tree script) m ms d ≡ Ended v y →
        Ended w x ≡ Ended v y }
{}
