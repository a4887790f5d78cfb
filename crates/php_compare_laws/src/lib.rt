// Laws of comparison. Each function says one in its contract, and its body is empty.
#![tactic(auto)]

ghost use Rattle.php_memdef.specs.declared.place.Place.{Place};
ghost use Rattle.php_memdef.specs.Laws.{ShowsAlike};
ghost use Rattle.php_compare.specs.Places.{order_at, same_at};

/// What stands at two places compares alike in memories that differ in the numbers of their stores alone.
pub fn comparisons_respect_alike()
    ensures order { (p q : Place) → ShowsAlike (λ m. order_at m p q) }
    ensures identity { (p q : Place) → ShowsAlike (λ m. same_at m p q) }
{}
