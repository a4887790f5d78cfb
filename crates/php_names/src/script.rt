// The check of a whole script.

ghost use Rattle.std.specs.Prelude.{◌≡◌, IfErr, IfOk, OnOk, List, ◌++◌};
ghost use Rattle.php_ast.specs.expression.View.{Note};
ghost use Rattle.php_ast.specs.declaration.Tree as tree;
ghost use Rattle.php_ast.specs.declaration.View.{script_view};
ghost use Rattle.php_legality.specs.declared.kind.Kind as kind;
ghost use Rattle.php_legality.specs.Legality.{all_kinds, IsFirstOf, IsLegal};
ghost use Rattle.php_names.specs.Fails.{TellsFirst};

use crate::fail::{NameFail, fail_of};
use crate::legal::Legal;
use php_ast::Script;
use php_base::NoMemory;
use php_duplicates::first_duplicate;
use php_forms::first_form_fault;
use php_jumps::first_jump_fault;
use php_legality::{Fault, sooner};
use php_many_names::first_name_past_limit;
use std::alloc::Global;

// The first fault of the kinds of two checks, from what each of them found.
fn earlier(one: Option<Fault>, other: Option<Fault>) -> Option<Fault>
    ensures { (script : tree.Script Note) (kinds others : List kind.Kind) → IsFirstOf kinds script one
        → IsFirstOf others script other → IsFirstOf (kinds ++ others) script result }
{
    match other {
        None => one,
        Some(fault) => sooner(one, fault),
    }
}

fn first_fault(alloc: Global, script: &Script) -> Result<Option<Fault>, NoMemory>
    ensures { IfOk result (IsFirstOf all_kinds (script_view script.now)) }
{
    let duplicate = first_duplicate(alloc, script)?;
    let name = first_name_past_limit(alloc, script)?;
    let jump = first_jump_fault(script);
    let form = first_form_fault(script);
    let inside = earlier(jump, form);
    let named = earlier(duplicate, name);
    Ok(earlier(inside, named))
}

// What the first fault of a script, or that there is none, comes to.
#[tactic(auto, using(crate::proofs::KindLemmas::is_legal))]
fn outcome(script: Script, found: Option<Fault>) -> Result<Legal, NameFail>
    requires { IsFirstOf all_kinds (script_view script) found }
    ensures same { IfOk result (λ legal. legal ≡ script) }
    ensures legal { OnOk result (IsLegal (script_view script)) }
    ensures fault { IfErr result (TellsFirst (script_view script)) }
{
    match found {
        None => Ok(Legal::new(script)),
        Some(fault) => Err(fail_of(fault)),
    }
}

/// The script, where it is legal, and else its first fault: that at the least place, and of several there the one whose kind goes
/// first. The kinds go in the order of the variants of `NameFail`.
///
/// It consumes the script also where it is refused. NoMemory comes where memory could not be had and for no other cause. The time is
/// linear in the length of the script.
pub fn check(alloc: Global, script: Script) -> Result<Legal, NameFail>
    ensures same { IfOk result (λ legal. legal ≡ script) }
    ensures legal { OnOk result (IsLegal (script_view script)) }
    ensures fault { IfErr result (TellsFirst (script_view script)) }
{
    match first_fault(alloc, &script) {
        Ok(found) => outcome(script, found),
        Err(_) => Err(NameFail::NoMemory),
    }
}
