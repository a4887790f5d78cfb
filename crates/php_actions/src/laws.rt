// What holds of the definitions alone. Each function says it in its contract, and its body is empty.
ghost use Rattle.php_machine.specs.Outputs.{OnlyWrites};
ghost use Rattle.php_machine.specs.Allowance.{Allows};
ghost use Rattle.php_actions.specs.declared.facts.Facts.{Facts};
ghost use Rattle.php_actions.specs.Plan.{rules};
ghost use Rattle.php_actions.specs.Allowances.{output_of, HasMoreTicks};
ghost use Rattle.php_actions.specs.declared.ending.Ending.TheVariants.{Cut};
ghost use Rattle.php_actions.specs.ComparisonExamples.{ComparisonExamples};
ghost use Rattle.php_actions.specs.ArrayExamples.{ArrayExamples, UnionIsTooLarge};
ghost use Rattle.php_actions.specs.Examples.{StackExamples, PlaceExamples, OperatorExamples, OutputExamples, OtherExamples, PlanExamples, RunExamples};

/// Actions, what comes between them, and small runs come to what they should.
pub fn worked_examples()
    ensures stack { StackExamples }
    ensures places { PlaceExamples }
    ensures operators { OperatorExamples }
    ensures output { OutputExamples }
    ensures other { OtherExamples }
    ensures plan { PlanExamples }
    ensures runs { RunExamples }
{}

/// Comparisons come to what they should.
pub fn worked_comparisons()
    ensures { ComparisonExamples }
{}

/// Places in arrays and unions of arrays come to what they should.
pub fn worked_arrays()
    ensures examples { ArrayExamples }
    ensures limit { UnionIsTooLarge }
{}

/// No step takes back what was written, and data with more ticks left goes on in the same way until the other
/// has none. So a run with fewer ticks writes how the output of one with more begins.
pub fn ticks_decide_where_a_run_is_cut()
    ensures only_writes { (facts : Facts) → OnlyWrites (rules facts) output_of }
    ensures allows { (facts : Facts) → Allows (rules facts) output_of Cut HasMoreTicks }
{}
