// Laws of scripts and their runs. Each is the contract of a function that does nothing: it says what holds
// of the definitions, for every file, every script and every run.
#![tactic(auto)]

ghost use Rattle.std.specs.Prelude.{◌≡◌, ◌≢◌, ℕ, ◌≤◌, List, Option};
ghost use Rattle.php_first_tree.specs.Expression.{Statement};
ghost use Rattle.php_first_tokens.specs.declared.token.Token.{Token};
ghost use Rattle.php_first_tokens.specs.Lexemes.{AreFirst};
ghost use Rattle.php_token.specs.Token as whole;
ghost use Rattle.php_first_run.specs.declared.value.Value.{Value};
ghost use Rattle.php_first_run.specs.Running.{cut_off, run};
ghost use Rattle.php_base.specs.Streams.{IsFront};
ghost use Rattle.php_run.specs.Words.{Request};
ghost use Rattle.php_run.specs.Answer.{Answer};
ghost use Rattle.php_run.specs.Owed.{IsOwed};
ghost use Rattle.php_run.specs.Today.{IsScript, run_of};

/// What a run writes with an allowance, it writes with a longer one too, and then perhaps more.
pub fn longer_allowance_writes_more()
    ensures from_anywhere { (texts : List (List ℕ)) (statements : List Statement) (values : List Value) (ticks less more : ℕ) →
        less ≤ more → IsFront (run texts less ticks values statements).output (run texts more ticks values statements).output }
    ensures from_the_beginning { (texts : List (List ℕ)) (statements : List Statement) (variables less more : ℕ) →
        less ≤ more → IsFront (run_of texts less variables statements).output (run_of texts more variables statements).output }
{}

/// A run that the allowance doesn't cut off is the same with a longer one: its end, its ticks and its output.
pub fn longer_allowance_keeps_the_end()
    ensures from_anywhere { (texts : List (List ℕ)) (statements : List Statement) (values : List Value) (ticks less more : ℕ) →
        less ≤ more → ((run texts less ticks values statements).ending ≢ cut_off) →
        run texts more ticks values statements ≡ run texts less ticks values statements }
    ensures from_the_beginning { (texts : List (List ℕ)) (statements : List Statement) (variables less more : ℕ) →
        less ≤ more → ((run_of texts less variables statements).ending ≢ cut_off) →
        run_of texts more variables statements ≡ run_of texts less variables statements }
{}

/// The tokens of a file are tokens of the first language in at most one way.
pub fn one_narrowing()
    ensures { (found : List whole.Token) (firsts others : List Token) →
        AreFirst found firsts → AreFirst found others → firsts ≡ others }
{}

/// The tokens of a file spell at most one script.
pub fn one_script()
    ensures { (found : List whole.Token) (variables other_variables : ℕ) (statements other_statements : List Statement) →
        IsScript found variables statements → IsScript found other_variables other_statements →
        (variables ≡ other_variables) × (statements ≡ other_statements) }
{}

/// To the words of a command line and what is held under the file's name, at most one answer is owed.
pub fn one_result()
    ensures { (request : Option Request) (held : Option (List ℕ)) (answer other : Answer) →
        IsOwed request held answer → IsOwed request held other → answer ≡ other }
{}
