// What holds of every script and its answers.

ghost use Rattle.std.specs.Prelude.{◌≡◌, ◌≢◌, Result, Err};
ghost use Rattle.php_ast.specs.declared.script.Script.{Script};
ghost use Rattle.php_ast.specs.declaration.View.{script_view};
ghost use Rattle.php_names.specs.declared.fail.NameFail.{NameFail};
ghost use Rattle.php_names.specs.declared.fail.NameFail.TheVariants.{NoMemory};
ghost use Rattle.php_names.specs.Answers.{IsAnswer, told, HasOneLine};

/// A script has one answer at most, besides that memory was wanted: it is legal, or the first fault is of one kind and at one token.
/// Where all faults at one token have one line, as in every script that was read from tokens, the line is one too.
pub fn one_answer()
    ensures token { (script : Script) (a b : Result Script NameFail) → IsAnswer script a → IsAnswer script b
        → a ≢ Err NoMemory → b ≢ Err NoMemory → told a ≡ told b }
    ensures whole { (script : Script) (a b : Result Script NameFail) → HasOneLine (script_view script)
        → IsAnswer script a → IsAnswer script b → a ≢ Err NoMemory → b ≢ Err NoMemory → a ≡ b }
{}
