// What holds of any code. Each function says it in its contract, and its body is empty.
ghost use Rattle.std.specs.Prelude.{ℕ, List};
ghost use Rattle.php_machine.specs.Control.{Kept};
ghost use Rattle.php_actions.specs.declared.facts.Facts.{Facts};
ghost use Rattle.php_actions.specs.Data.{Data};
ghost use Rattle.php_actions.specs.Plan.{rules};
ghost use Rattle.php_code.specs.declared.program.Program.{Program};
ghost use Rattle.php_code.specs.Code.{Place, code};
ghost use Rattle.php_code_laws.specs.Over.{ComesToAnEnd};

/// Each run of any code is over after some number of steps: each way back takes a tick, and else a frame goes on.
pub fn any_code_ends()
    ensures { (facts : Facts) (program : Program) (ns : List ℕ) (d : Data) (cs : List (List Place)) (kept : List (Kept (List Place))) →
        ComesToAnEnd (rules facts) (code program) ns d cs kept }
{}
