// What holds of the definitions. Each function says it in its contract, and its body is empty.
ghost use Rattle.std.specs.Prelude.{◌≡◌};
ghost use Rattle.php_value.specs.declared.scalar.Scalar.{Scalar};
ghost use Rattle.php_value.specs.Comparison.{order_of};
ghost use Rattle.php_memdef.specs.Contents.{Content, Mem};
ghost use Rattle.php_memdef.specs.Temporaries.{content_of_scalar};
ghost use Rattle.php_compare.specs.Outcomes.{Compared, or_ends};
ghost use Rattle.php_compare.specs.Ordering.{order_by_rules};
ghost use Rattle.php_compare.specs.Samples.{OrderTable, IdentityTable};
ghost use Rattle.php_compare.specs.Examples.{PlainExamples, ArrayExamples, ObjectExamples, NestingExamples};

/// Each rule of comparison comes to what it should, and so does its nearest neighbour.
pub fn worked_examples()
    ensures plain { PlainExamples }
    ensures arrays { ArrayExamples }
    ensures objects { ObjectExamples }
    ensures nesting { NestingExamples }
{}

/// Values of all kinds, each compared with each: their orders, and which of them are identical.
pub fn worked_tables()
    ensures orders { OrderTable }
    ensures identities { IdentityTable }
{}

/// Values without parts compare as scalars do, whatever memory they stand in.
pub fn scalars_compare_alone()
    ensures { (inner : Content → Content → Compared) (m : Mem) (v w : Scalar)
        → order_by_rules inner m (content_of_scalar v) (content_of_scalar w) ≡ or_ends (order_of v w) }
{}
