// What holds of scripts and their code together. Each function says it in its contract, and its body is empty.
ghost use Rattle.std.specs.Prelude.{ℕ, List, [], ◌∷◌};
ghost use Rattle.php_ast.specs.declaration.Tree.{Script};
ghost use Rattle.php_ast.specs.expression.View.{Note};
ghost use Rattle.php_actions.specs.Data.{Data};
ghost use Rattle.php_actions.specs.Plan.{rules};
ghost use Rattle.php_code.specs.Code.{code};
ghost use Rattle.php_code_laws.specs.Over.{ComesToAnEnd};
ghost use Rattle.php_meaning.specs.Facts.{facts_of};
ghost use Rattle.php_meaning.specs.Meaning.{tree};
ghost use Rattle.php_compile.specs.Compiled.{compiled};
ghost use Rattle.php_compile_laws.specs.Stuck.{IsNeverStuck};

/// Each run of a script's tree is over after some number of steps, as that of its code is.
pub fn any_script_ends()
    ensures { (script : Script Note) (ns : List ℕ) (d : Data) →
        ComesToAnEnd (rules (facts_of script)) (tree script) ns d ((tree script).start 0 ∷ []) [] }
{}

/// Where no run of the tree is stuck, none of the code is.
pub fn code_is_stuck_only_as_the_tree()
    ensures { (script : Script Note) (d : Data) → IsNeverStuck (rules (facts_of script)) (tree script) d →
        IsNeverStuck (rules (facts_of script)) (code (compiled script)) d }
{}
