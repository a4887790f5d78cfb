// Legal scripts.

use php_ast::Script;
use std::marker::Model;

/// A script without a fault. `check` alone makes one.
#[derive(Drop)]
pub struct Legal {
    script: Script,
}

impl Model for Legal {
    ghost use Rattle.php_ast.specs.declared.script.Script.{Script};
    ghost use Rattle.php_ast.specs.declaration.View.{script_view};
    ghost use Rattle.php_legality.specs.Legality.{IsLegal};

    ghost Value = { Script };

    ghost use Rattle.std.specs.Coded.{codes};
    ghost use Rattle.php_ast.specs.contracts.expression.Expr as e;
    ghost use Rattle.php_ast.specs.contracts.statement.Stmt as s;

    ghost coded = { Prim.hlevel (codes, e.the_row.coded, s.the_row.coded) };

    ghost view = { λ legal. legal.script };

    ghost invariant = { λ legal. IsLegal (script_view legal.script) };
}

impl Legal {
    ghost use Rattle.std.specs.Prelude.{◌≡◌};
    ghost use Rattle.php_ast.specs.declaration.View.{script_view};
    ghost use Rattle.php_legality.specs.Legality.{IsLegal};

    // A script that is legal.
    pub(crate) fn new(script: Script) -> Legal
        requires { IsLegal (script_view script) }
        ensures { result ≡ script }
    {
        Legal { script }
    }

    /// The script.
    pub fn script(&self) -> &Script
        ensures same { result.now ≡ self.now }
        ensures legal { IsLegal (script_view self.now) }
    {
        &self.script
    }

    /// The script, for who needs its trees themselves.
    pub fn into_script(self) -> Script
        ensures same { result ≡ self }
        ensures legal { IsLegal (script_view self) }
    {
        self.script
    }
}
