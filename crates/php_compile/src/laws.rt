// What holds of the code of scripts. Each function says it in its contract, and its body is empty.
ghost use Rattle.php_machine.specs.Same.{SameRuns};
ghost use Rattle.php_ast.specs.declaration.Tree.{Script};
ghost use Rattle.php_ast.specs.expression.View.{Note};
ghost use Rattle.php_actions.specs.Plan.{rules};
ghost use Rattle.php_code.specs.Code.{code};
ghost use Rattle.php_meaning.specs.Facts.{facts_of};
ghost use Rattle.php_meaning.specs.Meaning.{tree};
ghost use Rattle.php_compile.specs.Compiled.{compiled};

/// From any data, under any numbers for the frames, each run of a script's tree is over as one of its code is, and
/// the other way round.
pub fn code_runs_as_the_tree()
    ensures { (script : Script Note) → SameRuns (rules (facts_of script)) (tree script) (code (compiled script)) }
{}
