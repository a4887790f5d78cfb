// What holds of the definitions alone. Each function says it in its contract, and its body is empty.
ghost use Rattle.php_meaning.specs.Examples.{MeaningExamples};

/// Small scripts come to what they should.
pub fn worked_examples()
    ensures { MeaningExamples }
{}
